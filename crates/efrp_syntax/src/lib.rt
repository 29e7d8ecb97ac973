//! The syntax of source texts: the lexer, the parser and the printer.
//!
//! Contracts see the tokens of a text by the rule of the longest token, the program that they spell by the grammar, and the
//! one fault of a text that spells none. The tool's front end stands on it.
#![tactic(auto)]

mod backward;
mod begun;
mod classes;
mod counts;
mod definitions;
mod expression_printer;
mod expressions;
mod fault_laws;
mod faults;
mod items;
mod keywords;
mod laws;
mod lexer;
mod marks;
mod numbers;
mod parser;
mod places;
mod prefixes;
mod printer;
mod programs;
mod readers;
mod round_trip;
mod starts;

pub use begun::{Begun, Notes};
pub use fault_laws::one_fault;
pub use faults::SyntaxFault;
pub use frp_tree::{Kind, Token};
pub use keywords::is_keyword;
pub use laws::{fewest_brackets, one_list_of_tokens, one_program, one_tree};
pub use lexer::lex;
pub use parser::parse;
pub use places::{notes_of, place_of_many, token_place};
pub use printer::print;
pub use round_trip::print_and_parse;
