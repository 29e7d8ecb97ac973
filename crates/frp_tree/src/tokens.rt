// What the lexer cuts a source text into.
use crate::texts::Text;

/// What a source text is cut into.
#[derive(Debug, Drop)]
pub enum Token {
    /// A name or a keyword.
    Word(Text),
    /// A number with no suffix.
    Num(u16),
    /// A number with the suffix `w`.
    Wide(u16),
    /// A mark, by its number in `; : = { } ( ) => || && == != < <= > >= | ^ & << >> + - * / % ~ ! [ ] ,`, counted from
    /// 0. `marks` has their names.
    Mark(u8),
}
