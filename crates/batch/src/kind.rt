// The kind of coefficient, chosen by name.
ghost use Rattle.std.specs.Prelude.{◌≡◌, Some};
ghost use Rattle.batch.specs.Kinds.{chosen_kind, kind_named, kind_text};

use interval::{FixedKind, Interval, IntervalKind, Kind, Scale, WholeKind};
use std::fmt;

#[derive(Clone, Copy, Debug, PartialEq, Eq)]
pub enum KindChoice {
    Whole,
    Fixed,
    Interval,
}

impl Kind for KindChoice {
    ghost meaning = { chosen_kind };

    fn scale(&self) -> Scale {
        match self {
            KindChoice::Whole => WholeKind.scale(),
            KindChoice::Fixed => FixedKind.scale(),
            KindChoice::Interval => IntervalKind.scale(),
        }
    }

    fn split(&self, i: Interval) -> (Interval, Interval) {
        match self {
            KindChoice::Whole => WholeKind.split(i),
            KindChoice::Fixed => FixedKind.split(i),
            KindChoice::Interval => IntervalKind.split(i),
        }
    }
}

impl KindChoice {
    // `whole`, `fixed` or `interval`. No FromStr: each caller has an error of its own in place of that one.
    pub fn named(word: &str) -> Option<KindChoice>
        ensures value { result ≡ kind_named word.now }
    {
        match word {
            "whole" => Some(KindChoice::Whole),
            "fixed" => Some(KindChoice::Fixed),
            "interval" => Some(KindChoice::Interval),
            _ => None,
        }
    }
}

// The word that names it.
impl fmt::Display for KindChoice {
    ghost output = { λ x. Some (kind_text x) };

    fn fmt<W: fmt::Write>(&self, f: &mut fmt::Formatter<W>) -> fmt::Result {
        f.write_str(match self {
            KindChoice::Whole => "whole",
            KindChoice::Fixed => "fixed",
            KindChoice::Interval => "interval",
        })
    }
}
