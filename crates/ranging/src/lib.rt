// Ranging methods: how a polynomial gets its range.
#![tactic(auto)]

mod joint; // the joint range of a linear and a square term
mod meet; // what two methods have in common
mod method; // what a method is
mod pairs; // each term's part of the quadratic range
mod plain; // the reaches added up
mod quadratic; // with a joint range for each pair
#[cfg(test)]
mod tests; // figures

pub use meet::Meet;
pub use method::Ranging;
pub use plain::{Plain, plain_range};
pub use quadratic::{Quadratic, quadratic_range};
