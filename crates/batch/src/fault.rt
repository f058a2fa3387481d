// What can be wrong with a line.
ghost use Rattle.std.specs.Prelude.{◌≡◌, [], Some};
ghost use Rattle.batch.specs.Faults.{mistake_words, fault_words, objection, mistaken, refused, no_memory};

use interval::Reason;
use std::alloc::{AllocError, AllocFailed};
use std::error::Error;
use std::fmt;

// What no rule of the sheet has a number for.
#[derive(Clone, Copy, Debug, PartialEq, Eq)]
pub enum Mistake {
    UnknownStatement,
    KindForm,
    MethodForm,
    OrderForm,
    InputForm,
    TermForm,
    RangeForm,
    NotANumber,
    NotAName,
    NotAFactor,
    NameTaken,
    NoInput,
    LateKind,
    AboveOrder,
    OutOfMemory,
}

// With the word that it is about, or an empty one: an empty name and no name are told alike, so an Option would tell apart what is one.
#[derive(Clone, Copy, Debug, PartialEq, Eq)]
pub enum Fault<'a> {
    Mistaken(Mistake, &'a str),
    Refused(Reason, &'a str),
}

impl Mistake {
    pub fn words(self) -> &'static str
        ensures value { result.now ≡ mistake_words self }
    {
        match self {
            Mistake::UnknownStatement => "no statement is named",
            Mistake::KindForm => "kind takes whole, fixed or interval",
            Mistake::MethodForm => "method takes plain, quadratic, or meet and two methods",
            Mistake::OrderForm => "order takes a whole number",
            Mistake::InputForm => "input takes a name, a least and a greatest value",
            Mistake::TermForm => "term takes a coefficient, then factors",
            Mistake::RangeForm => "range takes nothing",
            Mistake::NotANumber => "this is no decimal number:",
            Mistake::NotAName => "this is no name:",
            Mistake::NotAFactor => "this is no factor:",
            Mistake::NameTaken => "there already is an input named",
            Mistake::NoInput => "no input is named",
            Mistake::LateKind => "the kind comes after an input",
            Mistake::AboveOrder => "the degree is above the order",
            Mistake::OutOfMemory => "no memory is left",
        }
    }
}

impl fmt::Display for Mistake {
    ghost output = { λ x. Some (mistake_words x) };

    fn fmt<W: fmt::Write>(&self, f: &mut fmt::Formatter<W>) -> fmt::Result {
        f.write_str(self.words())
    }
}

impl fmt::Display for Fault<'_> {
    ghost output = { λ x. Some (fault_words x) };

    fn fmt<W: fmt::Write>(&self, f: &mut fmt::Formatter<W>) -> fmt::Result {
        match *self {
            Fault::Mistaken(mistake, "") => write!(f, "{mistake}"),
            Fault::Mistaken(mistake, word) => write!(f, "{mistake} {word}"),
            Fault::Refused(reason, "") => write!(f, "refusal {}: {reason}", reason.number()),
            Fault::Refused(reason, word) => {
                write!(f, "refusal {}: {reason}: {word}", reason.number())
            }
        }
    }
}

impl Error for Mistake {}

impl Error for Fault<'_> {}

// Of no word.
impl From<Mistake> for Fault<'_> {
    ghost from_gives = { λ m r. objection r ≡ mistaken m [] };

    fn from(what: Mistake) -> Self {
        Fault::Mistaken(what, "")
    }
}

// Of no word.
impl From<Reason> for Fault<'_> {
    ghost from_gives = { λ x r. objection r ≡ refused x [] };

    fn from(why: Reason) -> Self {
        Fault::Refused(why, "")
    }
}

// The library's two errors of memory have no trait in common, so each has an impl.
impl From<AllocError> for Fault<'_> {
    ghost from_gives = { λ _ r. objection r ≡ no_memory };

    fn from(_: AllocError) -> Self {
        Mistake::OutOfMemory.into()
    }
}

impl<T: Drop> From<AllocFailed<T>> for Fault<'_> {
    ghost from_gives = { λ _ r. objection r ≡ no_memory };

    fn from(_: AllocFailed<T>) -> Self {
        Mistake::OutOfMemory.into()
    }
}
