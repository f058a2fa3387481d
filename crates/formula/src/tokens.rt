// The tokens of a text, one after the other.
ghost use Rattle.std.specs.Prelude.{◌≡◌};
ghost use Rattle.std.specs.Iterator.{YieldsFirst, item_count};
ghost use Rattle.formula.specs.Token.{tokens};
ghost use Rattle.formula.specs.Tokens.{tokens_left};

use crate::reader::read;
use crate::token::Token;

// What is left of a text from a place on; it ends before the first token that cannot be read.
#[derive(Drop)]
pub(crate) struct Tokens<'a> {
    text: &'a [u8],
    at: usize,
}

// From the first byte on.
impl<'a> From<&'a [u8]> for Tokens<'a> {
    ghost from_gives = { λ text t. tokens_left t ≡ tokens text.now };

    fn from(text: &'a [u8]) -> Tokens<'a> {
        Tokens { text, at: 0 }
    }
}

impl Iterator for Tokens<'_> {
    type Item = Token;

    ghost next_gives = { YieldsFirst tokens_left };

    ghost remaining = { item_count tokens_left };

    fn next(&mut self) -> Option<Token> {
        let (token, next) = read(self.text, self.at).ok()?;
        self.at = next;
        Some(token)
    }
}
