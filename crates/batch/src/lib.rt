// The batch language: which words say which statement, the desk that takes statements, and how answers are written.
#![tactic(auto)]

mod decimal; // exact decimal numbers of units
mod desk; // the desk that takes statements
mod draft; // a polynomial as its terms come in
mod drafting; // how terms come in
mod factor; // the place of an input beside a power
mod factors; // the monomial that factors spell
mod fault; // what can be wrong with a line
mod inputs; // the inputs of a box
mod kind; // the kind of coefficient, chosen by name
mod method; // the ranging method, spelled in words
mod naming; // inputs by their names
mod statement; // a statement, read from words
#[cfg(test)]
mod tests; // figures, row by row
mod words; // the words of a line

pub use decimal::Decimal;
pub use desk::Desk;
pub use draft::Draft;
pub use factors::monomial_of;
pub use fault::{Fault, Mistake};
pub use inputs::{Input, Inputs};
pub use kind::KindChoice;
pub use method::MethodChoice;
pub use statement::{Statement, is_name, read_statement, whole_number};
pub use words::{Word, words_of};
