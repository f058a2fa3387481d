// Ascending tables: keys with a total order, one search, one entry a key.
#![tactic(auto)]

mod entries; // the one table over a lent slice
mod exponents; // monomials by value
mod laws; // the laws, carried by functions
mod lookup; // entries under keys, and the one search
mod moves; // how entries are found, come and go
mod order; // keys with a total order

pub use entries::{Full, Table};
pub use exponents::{Monomial, all_even, degree, product, square_root};
pub use laws::{dropping_holds, entering_holds, monomials_hold, orders_hold, searches_hold};
pub use lookup::{Entry, search};
pub use order::TotalOrder;

#[cfg(test)]
mod tests;
