// Formulas as texts of tokens in postfix order: their bytes, and what they mean.
#![tactic(auto)]

mod admission; // whether a token may be run
mod fault; // why a formula is refused, and where
mod inputs; // what a formula is given
mod laws; // what holds whatever the texts
mod reader; // the token at a place of a text
mod token; // what a text is made of
mod tokens; // the tokens of a text, one after the other
mod usage; // which variables a text uses
mod writer; // the bytes of tokens

pub use admission::admit;
pub use fault::Fault;
pub use inputs::Ends;
pub use laws::{
    formulas_are_enclosed, lines_look_back, uses_are_complete, work_keeps_lines_sound,
    writing_is_undone,
};
pub use reader::read;
pub use token::Token;
pub use usage::uses;
pub use writer::{write, write_all};

#[cfg(test)]
mod tests;
