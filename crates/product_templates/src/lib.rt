//! The acts of products and quotients of 8 and 16 bits: a core on operand bytes alone, with the copies of its operands and its
//! result around it.
#![tactic(auto)]

mod laws;
mod templates;

pub use laws::{are_short, are_sound, core_does, template_does};
pub use templates::product_template;
