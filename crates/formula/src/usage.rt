// Which variables a text uses.
ghost use Rattle.std.specs.Prelude.{◌≡◌};
ghost use Rattle.formula.specs.Token.{tokens};
ghost use Rattle.formula.specs.Meaning.{token_uses, any_uses};

use crate::token::Token;
use crate::tokens::Tokens;

// The variable and the marks below go together in three functions, here and over a line's record: they are the question itself, and a
// struct of the two would be taken apart at each use.
fn token_uses(token: Token, variable: usize, below: &[bool]) -> bool
    ensures value { result ≡ token_uses variable below.now token }
{
    match token {
        Token::Variable(number) => variable == usize::from(number),
        Token::Line(number) => below.get(usize::from(number)).is_some_and(|used| *used),
        _ => false,
    }
}

// Whether the text names the variable, or a line that uses it: `below` tells this of each line below.
pub fn uses(text: &[u8], variable: usize, below: &[bool]) -> bool
    ensures value { result ≡ any_uses variable below.now (tokens text.now) }
{
    Tokens::from(text).any(|token| token_uses(token, variable, below))
}
