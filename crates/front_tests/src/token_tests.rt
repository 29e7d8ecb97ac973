// Texts are cut into tokens, and each mark has its number.
use efrp_syntax::{SyntaxFault, lex};
use frp_tree::{Token, marks};
use std::test::Fail;

const MARKS: &[u8] =
    b"; : = { } ( ) => || && == != < <= > >= | ^ & << >> + - * / % ~ ! [ ] , // ;\r and on";

#[test]
fn each_mark_has_its_number(rt: HostRuntime) -> Result<(), Fail> {
    let tokens = lex(rt.alloc(), MARKS)?;
    assert_eq!(rt; tokens.len(), 31);
    let numbered = tokens.as_slice().iter().enumerate().all(|(
        i,
        token,
    )| matches!(token, Token::Mark(k) if usize::from(*k) == i));
    assert!(rt; numbered);
    Ok(())
}

#[test]
fn names_and_numbers(rt: HostRuntime) -> Result<(), Fail> {
    let tokens = lex(rt.alloc(), b"a=>0x1Fw//c\n007\t65535w _b9")?;
    assert_eq!(rt; tokens.len(), 6);
    assert!(rt; matches!(tokens.get(0), Some(Token::Word(name)) if name.as_str() == "a"));
    assert!(rt; matches!(tokens.get(1), Some(Token::Mark(marks::ARROW))));
    assert!(rt; matches!(tokens.get(2), Some(Token::Wide(31))));
    assert!(rt; matches!(tokens.get(3), Some(Token::Num(7))));
    assert!(rt; matches!(tokens.get(4), Some(Token::Wide(65_535))));
    assert!(rt; matches!(tokens.get(5), Some(Token::Word(name)) if name.as_str() == "_b9"));
    Ok(())
}

#[test]
fn first_faults(rt: HostRuntime) {
    let no_mark = lex(rt.alloc(), b"event @").err();
    assert_eq!(rt; no_mark, Some(SyntaxFault::BadByte(6)));
    let long_name = lex(rt.alloc(), b"event abcdefghijklmnopqrstuvwxyz_01234 @").err();
    assert_eq!(rt; long_name, Some(SyntaxFault::TooBig(6)));
}
