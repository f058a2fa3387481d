// A refusal: why, and where.
ghost use Rattle.std.specs.Prelude.{Some};
ghost use Rattle.interval.specs.Refusal.{told};

use crate::reason::Reason;
use std::fmt;

// The line is that of a sheet; the place is a byte of a text, or a variable.
#[derive(Clone, Copy, Debug, PartialEq, Eq)]
pub struct Refusal {
    pub reason: Reason,
    pub line: u64,
    pub place: usize,
}

impl fmt::Display for Refusal {
    ghost output = { λ x. Some (told x) };

    fn fmt<W: fmt::Write>(&self, f: &mut fmt::Formatter<W>) -> fmt::Result {
        let number = self.reason.number();
        let line = self.line;
        let place = self.place;
        let words = self.reason.words();
        write!(f, "refused {number} at line {line}, place {place}: {words}")
    }
}
