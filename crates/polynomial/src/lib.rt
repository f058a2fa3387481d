// Polynomials in unit coordinates: terms, reach, and what a range of them means.
#![tactic(auto)]

mod laws; // what values, reaches and ranges keep
mod lookup; // the coefficient at a monomial
mod polynomial; // polynomials in a lent slice
mod reaching; // what an interval times a monomial reaches
mod term; // a monomial with its coefficient
mod terms; // terms in a lent slice

pub use laws::{joint_ranges_hold, methods_hold, reaches_hold, terms_are_told_apart, values_hold};
pub use lookup::coefficient_at;
pub use polynomial::Polynomial;
pub use reaching::reach;
pub use term::{Term, ZERO_TERM};
pub use terms::{all_fit, drop_zeros, enter};
