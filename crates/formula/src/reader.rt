// Reads one token of a text.
ghost use Rattle.std.specs.Prelude.{◌≡◌, ◌+◌, ◌<◌, ◌≤◌, length, IfOk};
ghost use Rattle.formula.specs.Token.{real, token_at};

use crate::token::Token;
use interval::Reason;
use std::num::f64_from_bits_with_nan;

// The eight bytes from `at` on as a binary64, lowest byte first.
fn real(text: &[u8], at: usize) -> f64
    requires { at + 8 ≤ length text.now }
    ensures value { result ≡ real text.now at }
{
    let mut bytes = [0; 8];
    bytes.copy_from_slice(&text[at..at + 8]);
    f64_from_bits_with_nan(u64::from_le_bytes(bytes))
}

// The token whose tag stands at `at`, and the place after it. Any eight bytes are a constant, a NaN's too.
pub fn read(text: &[u8], at: usize) -> Result<(Token, usize), Reason>
    ensures value { result ≡ token_at text.now at }
    ensures bound { IfOk result (λ found. (at < found.1) × (found.1 ≤ length text.now)) }
{
    if at >= text.len() {
        return Err(Reason::TextEnds);
    }
    let left = text.len() - at;
    match text[at] as char {
        'c' if left < 9 => Err(Reason::TextEnds),
        'v' | 'l' | '^' if left < 2 => Err(Reason::TextEnds),
        'c' => Ok((Token::Constant(real(text, at + 1)), at + 9)),
        'v' => Ok((Token::Variable(text[at + 1]), at + 2)),
        'l' => Ok((Token::Line(text[at + 1]), at + 2)),
        '^' => Ok((Token::Power(text[at + 1]), at + 2)),
        '+' => Ok((Token::Add, at + 1)),
        '-' => Ok((Token::Subtract, at + 1)),
        '*' => Ok((Token::Multiply, at + 1)),
        _ => Err(Reason::UnknownTag),
    }
}
