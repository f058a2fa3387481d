// The words of a line.
ghost use Rattle.std.specs.Prelude.{◌≡◌, map, IfOk};
ghost use Rattle.std.specs.List.{AllByRecursion};
ghost use Rattle.batch.specs.Words.{token, Reads, words, uncommented};

use std::alloc::{AllocError, Global};

// A word, and the decimal number that it is, if it is one.
#[derive(Clone, Copy, Debug, PartialEq)]
pub struct Word<'a> {
    pub text: &'a str,
    pub number: Option<f64>,
}

impl<'a> Word<'a> {
    pub fn new(text: &'a str) -> Word<'a>
        ensures value { (token result).text ≡ text.now }
        ensures reads { Reads (token result) }
    {
        Word {
            text,
            number: text.parse::<f64>().ok(),
        }
    }
}

// What stands before the first `#`.
fn before_comment(line: &str) -> &str
    ensures value { result.now ≡ uncommented line.now }
{
    match line.split_once('#') {
        Some((before, _)) => before,
        None => line,
    }
}

// Words stand between blanks; `#` begins a comment.
pub fn words_of<'a>(heap: Global, line: &'a str) -> Result<Vec<Word<'a>>, AllocError>
    ensures value { IfOk result (λ v. map (λ w. (token w).text) v.items ≡ words line.now) }
    ensures reads { IfOk result (λ v. AllByRecursion (λ w. Reads (token w)) v.items) }
{
    let mut found = Vec::new(heap);
    for piece in before_comment(line).split(' ') {
        if !piece.is_empty() {
            found.push(Word::new(piece))?;
        }
    }
    Ok(found)
}
