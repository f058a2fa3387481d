// Tests a token against what stands.
ghost use Rattle.std.specs.Prelude.{◌≡◌};
ghost use Rattle.interval.specs.Scale.{per_unit};
ghost use Rattle.formula.specs.Admitted.{admitted};

use crate::token::Token;
use interval::{Interval, Reason, Scale};

// Whether a token that was read may be run where so many variables and lines stand.
pub fn admit(token: Token, scale: Scale, variables: usize, lines: usize) -> Result<(), Reason>
    ensures value { result ≡ admitted (per_unit scale) variables lines token }
{
    match token {
        Token::Constant(x) if Interval::hull(x, scale).is_none() => Err(Reason::ConstantDoesNotFit),
        Token::Variable(v) if usize::from(v) >= variables => Err(Reason::NoSuchVariable),
        Token::Line(n) if usize::from(n) >= lines => Err(Reason::LineNotStanding),
        Token::Power(e) if e > 8 => Err(Reason::ExponentTooLarge),
        _ => Ok(()),
    }
}
