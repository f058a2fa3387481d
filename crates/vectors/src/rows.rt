// A search in a row of keys.
ghost use Rattle.std.specs.Prelude.{false};
ghost use Rattle.std.proofs.Common.{rules};

use crate::answer::Answer;
use crate::fault::Fault;
use std::alloc::Global;
use table::{Entry, search};

// An entry that is its key, and is never spent.
#[derive(Clone, Copy)]
pub struct Key(u8);

impl Entry for Key {
    type Key = u8;

    ghost keyed = { λ x. x.0 };

    ghost spent = { λ _. false };

    ghost joined = { λ x _. x };

    ghost keeps = { Prim.search rules };

    fn key(&self) -> u8 {
        self.0
    }

    fn is_spent(&self) -> bool {
        false
    }

    fn join(self, _other: Key) -> Key {
        self
    }
}

// `KEY : KEYS ..`
pub fn search_row(heap: Global, arguments: &str) -> Result<Answer, Fault> {
    let (sought, row) = arguments.split_once(" :").ok_or(Fault::Unreadable)?;
    let key = sought.parse::<u8>()?;
    let mut keys = Vec::new(heap);
    for word in row.split_whitespace() {
        keys.push(Key(word.parse::<u8>()?))?;
    }
    Ok(Answer::Place(search(keys.as_slice(), key)))
}
