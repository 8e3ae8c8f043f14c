//! The tokens of texts.

use TokenKind::*;
use std::alloc::Global;
use vd_source_lexer::{Token, TokenKind, tokens};

/// The kind of a token, the offsets of its start and its end, and its value.
type Row = (TokenKind, u32, u32, u32);

fn is_token(token: &Token, row: &Row) -> bool {
    let (kind, start, end, value) = *row;
    token.kind == kind && token.span.start == start && token.span.end == end && token.value == value
}

fn are_tokens(found: &[Token], rows: &[Row]) -> bool {
    found.len() == rows.len()
        && found
            .iter()
            .zip(rows)
            .all(|(token, row)| is_token(token, row))
}

/// Whether the text, of at most 100 bytes, has these tokens.
fn has_tokens(alloc: Global, text: &str, rows: &[Row]) -> bool {
    let bytes = text.as_bytes();
    if bytes.len() > 100 {
        return false;
    }
    match tokens(alloc, bytes) {
        Ok(found) => are_tokens(found.as_slice(), rows),
        Err(_) => false,
    }
}

/// Texts and their tokens.
const TEXTS: [(&str, &[Row]); 10] = [
    ("", &[(End, 0, 0, 0)]),
    (" \t\r\n// no # token", &[(End, 17, 17, 0)]),
    ("0", &[(Number, 0, 1, 0), (End, 1, 1, 0)]),
    (
        "4294967295 ",
        &[(Number, 0, 10, 4_294_967_295), (End, 11, 11, 0)],
    ),
    (
        "a:=1;",
        &[
            (Name, 0, 1, 0),
            (Assign, 1, 3, 0),
            (Number, 3, 4, 1),
            (Semicolon, 4, 5, 0),
            (End, 5, 5, 0),
        ],
    ),
    (
        "fun fun2 _x9",
        &[
            (Fun, 0, 3, 0),
            (Name, 4, 8, 0),
            (Name, 9, 12, 0),
            (End, 12, 12, 0),
        ],
    ),
    ("1a", &[(Number, 0, 1, 1), (Name, 1, 2, 0), (End, 2, 2, 0)]),
    (
        "<<=>",
        &[
            (ShiftLeft, 0, 2, 0),
            (Equal, 2, 3, 0),
            (Greater, 3, 4, 0),
            (End, 4, 4, 0),
        ],
    ),
    (
        "/ //\n/",
        &[(Slash, 0, 1, 0), (Slash, 5, 6, 0), (End, 6, 6, 0)],
    ),
    (
        "array t[all]:none",
        &[
            (Array, 0, 5, 0),
            (Name, 6, 7, 0),
            (OpenBracket, 7, 8, 0),
            (All, 8, 11, 0),
            (CloseBracket, 11, 12, 0),
            (Colon, 12, 13, 0),
            (Nothing, 13, 17, 0),
            (End, 17, 17, 0),
        ],
    ),
];

#[test]
fn texts_have_their_tokens(rt: HostRuntime) {
    for (text, rows) in TEXTS {
        assert!(rt; has_tokens(rt.alloc(), text, rows), "{text}");
    }
}

#[test]
fn kinds_are_numbered_from_the_end(rt: HostRuntime) {
    assert_eq!(rt; TokenKind::End.code(), 0);
    assert_eq!(rt; TokenKind::Number.code(), 2);
    assert_eq!(rt; TokenKind::Greater.code(), 57);
}
