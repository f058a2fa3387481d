// Intervals of marks, hulls of binary64 values, variables, the kinds of coefficient, and the reasons of refusals.
#![tactic(auto)]

mod arithmetic; // sums, products and reaches of intervals
mod comparing; // the order of two binary64 values
mod hulls; // the hull of a binary64 value
mod kind; // what a kind of coefficient is
mod kinds; // whole, fixed and interval
mod laws; // what intervals promise
mod marks; // an interval: two ends in marks
mod reason; // why something is refused
mod refusal; // a reason with a line and a place
mod scale; // how many marks make a unit
#[cfg(test)]
mod tests; // figures, row by row
mod variable; // an input with its ends

pub use comparing::compare;
pub use kind::Kind;
pub use kinds::{FixedKind, IntervalKind, WholeKind};
pub use laws::{
    arithmetic_encloses, hulls_hold, numbers_are_distinct, reaches_enclose, splits_select,
};
pub use marks::{Interval, LIMIT};
pub use reason::Reason;
pub use refusal::Refusal;
pub use scale::Scale;
pub use variable::Variable;
