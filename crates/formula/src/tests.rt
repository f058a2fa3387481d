// A text with every tag, read token by token and written again; which tokens are admitted.
use crate::{Token, admit, read, uses, write_all};
use interval::{Reason, Scale};
use std::test::Fail;

const TEXT: &[u8] = b"c\0\0\0\0\0\0\xf8\x3fv\x01l\x02^\x03+-*";

const TOKENS: [Token; 7] = [
    Token::Constant(1.5),
    Token::Variable(1),
    Token::Line(2),
    Token::Power(3),
    Token::Add,
    Token::Subtract,
    Token::Multiply,
];

#[test]
fn every_tag_is_read(rt: HostRuntime) -> Result<(), Fail> {
    let mut at = 0;
    for token in TOKENS {
        let (found, next) = read(TEXT, at)?;
        assert_eq!(rt; found, token);
        at = next;
    }
    assert_eq!(rt; at, TEXT.len());
    Ok(())
}

#[test]
fn unreadable_tokens_are_refused(rt: HostRuntime) {
    let rows = [
        (0, Reason::UnknownTag),
        (1, Reason::TextEnds),
        (8, Reason::TextEnds),
        (9, Reason::TextEnds),
    ];
    for (at, reason) in rows {
        assert_eq!(rt; read(b"?c234567v", at), Err(reason));
    }
}

#[test]
fn tokens_are_written(rt: HostRuntime) -> Result<(), Fail> {
    let text = write_all(rt.alloc(), &TOKENS)?;
    assert!(rt; text.as_slice() == TEXT);
    Ok(())
}

// Where two variables and no lines stand, and a mark is a unit.
#[test]
fn tokens_are_admitted(rt: HostRuntime) {
    let rows = [
        (Token::Constant(2147483647.0), Ok(())),
        (
            Token::Constant(2147483648.0),
            Err(Reason::ConstantDoesNotFit),
        ),
        (Token::Variable(1), Ok(())),
        (Token::Variable(2), Err(Reason::NoSuchVariable)),
        (Token::Line(0), Err(Reason::LineNotStanding)),
        (Token::Power(8), Ok(())),
        (Token::Power(9), Err(Reason::ExponentTooLarge)),
        (Token::Multiply, Ok(())),
    ];
    for (token, expected) in rows {
        assert_eq!(rt; admit(token, Scale::unit(), 2, 0), expected);
    }
}

// A text names variable 1 and line 0.
#[test]
fn uses_go_through_lines(rt: HostRuntime) {
    let rows = [(1, false, true), (0, true, true), (0, false, false)];
    for (variable, below, expected) in rows {
        assert_eq!(rt; uses(b"v\x01l\0+", variable, &[below]), expected);
    }
}
