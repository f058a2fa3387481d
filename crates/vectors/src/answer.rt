// What a call answers, and how it is written.
use interval::{Interval, Reason};
use std::cmp::Ordering;
use std::fmt;

#[derive(Clone, Copy)]
pub enum Answer {
    // two ends
    Ends(Interval),
    // accepted, with two numbers
    Accepted(i64, i64),
    Refused(Reason),
    Unfit,
    NotFinite,
    // a coefficient and a leftover
    Parts(Interval, Interval),
    Rank(Ordering),
    // the place where the key stands, else where it would
    Place(Result<usize, usize>),
}

impl fmt::Display for Answer {
    fn fmt<W: fmt::Write>(&self, f: &mut fmt::Formatter<W>) -> fmt::Result {
        match *self {
            Answer::Ends(i) => write!(f, "{}", Ends(i)),
            Answer::Accepted(a, b) => write!(f, "ok {a} {b}"),
            Answer::Refused(reason) => write!(f, "refused {}", reason.number()),
            Answer::Unfit => write!(f, "unfit"),
            Answer::NotFinite => write!(f, "notfinite"),
            Answer::Parts(coefficient, leftover) => {
                write!(f, "{} {}", Ends(coefficient), Ends(leftover))
            }
            Answer::Rank(rank) => write!(f, "{}", name(rank)),
            Answer::Place(Ok(place)) => write!(f, "{place} 1"),
            Answer::Place(Err(place)) => write!(f, "{place} 0"),
        }
    }
}

// The lower end, then the upper.
#[derive(Clone, Copy)]
struct Ends(Interval);

impl fmt::Display for Ends {
    fn fmt<W: fmt::Write>(&self, f: &mut fmt::Formatter<W>) -> fmt::Result {
        let Interval { lower, upper } = self.0;
        write!(f, "{lower} {upper}")
    }
}

// A function, since both `Ordering` and `Display` are the library's.
fn name(rank: Ordering) -> &'static str {
    match rank {
        Ordering::Less => "less",
        Ordering::Equal => "equal",
        Ordering::Greater => "greater",
    }
}
