//! Intel HEX files of PIC16 program memory (Intel, Hexadecimal Object File Format Specification).
//!
//! Contracts see an `Image` as its words by address and the bytes of a file. `write` gives the one
//! written form of an image, and `read` the image of a file or its first fault. The simulator, the compiler and
//! the firmware's promises stand on it.
#![tactic(auto)]

mod faults;
mod images;
mod laws;
mod parsed;
mod reader;
mod records;
mod tables;
mod texts;
mod writer;

pub use faults::HexFault;
pub use images::{Aside, Image, Word};
pub use laws::{faulty_has_no_image, one_image, written_is_read};
pub use reader::read;
pub use writer::write;
