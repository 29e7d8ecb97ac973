//! The marks by name: the numbers that they have in `Token::Mark`.

/// `;`
pub const SEMICOLON: u8 = 0;

/// `:`
pub const COLON: u8 = 1;

/// `=`
pub const EQUALS: u8 = 2;

/// `{`
pub const OPENING_BRACE: u8 = 3;

/// `}`
pub const CLOSING_BRACE: u8 = 4;

/// `(`
pub const OPENING_PARENTHESIS: u8 = 5;

/// `)`
pub const CLOSING_PARENTHESIS: u8 = 6;

/// `=>`
pub const ARROW: u8 = 7;

/// `||`
pub const OR: u8 = 8;

/// `&&`
pub const AND: u8 = 9;

/// `==`
pub const EQUAL_TO: u8 = 10;

/// `!=`
pub const DIFFERENT_FROM: u8 = 11;

/// `<`
pub const LESS: u8 = 12;

/// `<=`
pub const LESS_OR_EQUAL: u8 = 13;

/// `>`
pub const GREATER: u8 = 14;

/// `>=`
pub const GREATER_OR_EQUAL: u8 = 15;

/// `|`
pub const BIT_OR: u8 = 16;

/// `^`
pub const BIT_XOR: u8 = 17;

/// `&`
pub const BIT_AND: u8 = 18;

/// `<<`
pub const SHIFT_LEFT: u8 = 19;

/// `>>`
pub const SHIFT_RIGHT: u8 = 20;

/// `+`
pub const PLUS: u8 = 21;

/// `-`
pub const MINUS: u8 = 22;

/// `*`
pub const TIMES: u8 = 23;

/// `/`
pub const DIVIDED_BY: u8 = 24;

/// `%`
pub const REMAINDER: u8 = 25;

/// `~`
pub const BIT_NOT: u8 = 26;

/// `!`
pub const NOT: u8 = 27;

/// `[`
pub const OPENING_BRACKET: u8 = 28;

/// `]`
pub const CLOSING_BRACKET: u8 = 29;

/// `,`
pub const COMMA: u8 = 30;
