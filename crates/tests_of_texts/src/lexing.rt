//! Rows of texts with their tokens, and each call of the lexer that can want memory.

use delta_lex::{Kind, LexFault, Token, number, tokens};
use std::alloc::Global;
use std::test::Fail;

// Whether a token is in that row.
fn is_token(token: &Token<'_>, (kind, at, text): (Kind, u32, &str)) -> bool {
    token.kind == kind && token.at == at && token.text == text
}

// Whether a text has these tokens, each with its kind and its place.
fn has(alloc: Global, text: &[u8], rows: &[(Kind, u32, &str)]) -> Result<bool, Fail> {
    let found = tokens(alloc, text)?;
    let mut all = found.len() == rows.len();
    for (token, row) in found.iter().zip(rows) {
        all = all && is_token(token, *row);
    }
    Ok(all)
}

#[test]
fn comment_is_no_token(rt: HostRuntime) -> Result<(), Fail> {
    assert!(rt; has(rt.alloc(), b"x // c", &[(Kind::Name, 0, "x")])?);
    assert!(rt; has(rt.alloc(), b"// c\n7", &[(Kind::Number, 5, "7")])?);
    Ok(())
}

// Whether a text is refused for that.
fn is_refused(alloc: Global, text: &[u8], fault: LexFault) -> bool {
    tokens(alloc, text).err() == Some(fault)
}

#[test]
fn stray_character_is_refused(rt: HostRuntime) {
    assert!(rt; is_refused(rt.alloc(), b"#", LexFault::BadChar(0)));
}

// Whether a text has so many tokens, all of a kind.
fn are_all(alloc: Global, text: &[u8], count: usize, kind: Kind) -> Result<bool, Fail> {
    let found = tokens(alloc, text)?;
    let mut all = found.len() == count;
    for token in found.iter() {
        all = all && token.kind == kind;
    }
    Ok(all)
}

#[test]
fn signs_are_read(rt: HostRuntime) -> Result<(), Fail> {
    let text = b"(){},;: ::= =>| ||+-*/<.";
    assert!(rt; are_all(rt.alloc(), text, 18, Kind::Sign)?);
    Ok(())
}

#[test]
fn longest_sign_is_taken(rt: HostRuntime) -> Result<(), Fail> {
    let rows = [
        (Kind::Sign, 0, "::"),
        (Kind::Sign, 2, ":"),
        (Kind::Sign, 3, "="),
        (Kind::Sign, 4, "=>"),
        (Kind::Sign, 6, "||"),
        (Kind::Sign, 8, "|"),
    ];
    assert!(rt; has(rt.alloc(), b":::==>|||", &rows)?);
    Ok(())
}

#[test]
fn words_are_no_names(rt: HostRuntime) -> Result<(), Fail> {
    let text =
        b"fun main type let in case of inl inr nil wait eps if then else fold from with Int fst snd";
    assert!(rt; are_all(rt.alloc(), text, 21, Kind::Word)?);
    let rows = [(Kind::Name, 0, "fun1"), (Kind::Name, 5, "_")];
    assert!(rt; has(rt.alloc(), b"fun1 _", &rows)?);
    Ok(())
}

#[test]
fn places_count_bytes(rt: HostRuntime) -> Result<(), Fail> {
    let rows = [(Kind::Name, 0, "дом"), (Kind::Name, 7, "x")];
    assert!(rt; has(rt.alloc(), "дом x".as_bytes(), &rows)?);
    Ok(())
}

#[test]
fn bad_utf8_is_refused(rt: HostRuntime) {
    assert!(rt; is_refused(rt.alloc(), &[0x23, 0xD0], LexFault::BadUtf8(1)));
    assert!(rt; is_refused(rt.alloc(), &[0xC0, 0xAF], LexFault::BadUtf8(0)));
}

#[test]
fn big_number_is_refused(rt: HostRuntime) -> Result<(), Fail> {
    let greatest = b"09223372036854775807";
    assert!(rt; are_all(rt.alloc(), greatest, 1, Kind::Number)?);
    let text = b"1 9223372036854775808 #";
    assert!(rt; is_refused(rt.alloc(), text, LexFault::BigNumber(2)));
    let rows = [
        ("9223372036854775807", Some(i64::MAX)),
        ("9223372036854775808", None),
        ("+1", None),
        ("", None),
    ];
    for (text, value) in rows {
        assert!(rt; number(text) == value);
    }
    Ok(())
}

#[test]
fn long_text_is_refused(rt: HostRuntime) -> Result<(), Fail> {
    let mut text = vec![in rt.alloc(); b' '; 1_048_576]?;
    assert!(rt; has(rt.alloc(), &text, &[])?);
    text.push(0xFF)?;
    assert!(rt; is_refused(rt.alloc(), &text, LexFault::LongText));
    Ok(())
}
