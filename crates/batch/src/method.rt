// The ranging method, spelled in words.
ghost use Rattle.std.specs.Prelude.{◌≡◌, ◌+◌, ◌^◌, ◌<◌, ◌≤◌, Some, map, IfSome};
ghost use Rattle.batch.specs.Words.{token};
ghost use Rattle.batch.specs.Methods.{chosen_method, method_text, with_leaf, advanced, spelled_by};

use crate::words::Word;
use interval::Interval;
use polynomial::Polynomial;
use ranging::{Meet, Plain, Quadratic, Ranging};
use std::fmt;

// A meet with itself changes nothing, so every tree of meets over plain and quadratic is one of these.
#[derive(Clone, Copy, Debug, PartialEq, Eq)]
pub enum MethodChoice {
    Plain,
    Quadratic,
    Both,
}

impl Ranging for MethodChoice {
    ghost meaning = { chosen_method };

    fn range(&self, polynomial: Polynomial<'_>) -> Interval {
        match self {
            MethodChoice::Plain => Plain.range(polynomial),
            MethodChoice::Quadratic => Quadratic.range(polynomial),
            MethodChoice::Both => Meet {
                first: Plain,
                second: Quadratic,
            }
            .range(polynomial),
        }
    }
}

// Words read in prefix order: the leaves so far, and how many methods are still wanted.
#[derive(Clone, Copy)]
struct Scan {
    wanted: usize,
    leaves: Option<MethodChoice>,
}

impl Scan {
    // A leaf is one of the methods that are wanted.
    fn with_leaf(self, leaf: MethodChoice) -> Scan
        requires { 0 < self.wanted }
        ensures value { result ≡ with_leaf self leaf }
    {
        let joined = match self.leaves {
            Some(leaves) if leaves != leaf => MethodChoice::Both,
            _ => leaf,
        };
        Scan {
            wanted: self.wanted - 1,
            leaves: Some(joined),
        }
    }

    // None where no method is wanted, or the word is none of the three.
    #[tactic(auto, unfolding(crate::specs::Methods::advanced))]
    fn read(self, word: &str) -> Option<Scan>
        requires { self.wanted + 1 < 2 ^ 64 }
        ensures value { result ≡ advanced self word.now }
        ensures bound { IfSome result (λ s. s.wanted ≤ self.wanted + 1) }
    {
        if self.wanted == 0 {
            return None;
        }
        match word {
            "plain" => Some(self.with_leaf(MethodChoice::Plain)),
            "quadratic" => Some(self.with_leaf(MethodChoice::Quadratic)),
            "meet" => Some(Scan {
                wanted: self.wanted + 1,
                ..self
            }),
            _ => None,
        }
    }
}

impl MethodChoice {
    // `plain`, `quadratic`, or `meet` and two methods.
    #[tactic(auto, unfolding(crate::specs::Methods::spelled_by))]
    pub fn spelled(words: &[Word<'_>]) -> Option<MethodChoice>
        ensures value { result ≡ spelled_by (map token words.now) }
    {
        let mut scan = Scan {
            wanted: 1,
            leaves: None,
        };
        for word in words {
            scan = scan.read(word.text)?;
        }
        if scan.wanted == 0 { scan.leaves } else { None }
    }
}

// Words that spell it.
impl fmt::Display for MethodChoice {
    ghost output = { λ x. Some (method_text x) };

    fn fmt<W: fmt::Write>(&self, f: &mut fmt::Formatter<W>) -> fmt::Result {
        f.write_str(match self {
            MethodChoice::Plain => "plain",
            MethodChoice::Quadratic => "quadratic",
            MethodChoice::Both => "meet plain quadratic",
        })
    }
}
