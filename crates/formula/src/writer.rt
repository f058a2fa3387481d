// Writes tokens as bytes.
ghost use Rattle.std.specs.Prelude.{◌≡◌, ◌++◌, is_ok, IfOk, if◌then◌else◌};
ghost use Rattle.formula.specs.Written.{written, written_all};

use crate::token::Token;
use std::alloc::{AllocError, Global};
use std::num::f64_to_bits_with_nan;

// Adds the token's bytes at the end, all of them or, for want of memory, none. Of a NaN it writes one pattern, whichever it was.
pub fn write(token: Token, out: &mut Vec<u8>) -> Result<(), AllocError>
    ensures after { out.new.items ≡ (if is_ok result then out.old.items ++ written token else out.old.items) }
{
    match token {
        Token::Constant(x) => {
            let [a, b, c, d, e, f, g, h] = f64_to_bits_with_nan(x).to_le_bytes();
            out.extend_from_slice(&[b'c', a, b, c, d, e, f, g, h])
        }
        Token::Variable(number) => out.extend_from_slice(&[b'v', number]),
        Token::Line(number) => out.extend_from_slice(&[b'l', number]),
        Token::Power(exponent) => out.extend_from_slice(&[b'^', exponent]),
        Token::Add => out.extend_from_slice(b"+"),
        Token::Subtract => out.extend_from_slice(b"-"),
        Token::Multiply => out.extend_from_slice(b"*"),
    }
}

// The bytes of the tokens, one after the other.
pub fn write_all(heap: Global, tokens: &[Token]) -> Result<Vec<u8>, AllocError>
    ensures value { IfOk result (λ text. text.items ≡ written_all tokens.now) }
{
    let mut text = Vec::new(heap);
    for token in tokens {
        write(*token, &mut text)?;
    }
    Ok(text)
}
