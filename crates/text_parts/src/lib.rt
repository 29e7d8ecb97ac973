//! The parts of texts that files and programs share: lines, fields, digits, numbers and names.
//!
//! Texts are slices of bytes, and nothing here takes memory. Lines are those of std's `lines`, which end in LF or CR
//! LF. Contracts say what each function finds, and that it finds nothing exactly where nothing of the form is there.
#![tactic(auto)]

mod cuts;
mod digits;
mod fields;
mod lines;
mod names;
mod numbers;

pub use cuts::split_once;
pub use digits::{are_hex_digits, digit_value, hex_digit_in, upper_hex_digit_in};
pub use fields::next_field;
pub use lines::next_line;
pub use names::{LONGEST_NAME, has_form_of_name, is_letter, is_name, is_word_byte, name_in};
pub use numbers::{byte_in, decimal_in, hex3_in, hex4_in, number_of, written_decimal_in};
