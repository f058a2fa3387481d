// What lies in a table under a key, and the one search.
ghost use Rattle.std.specs.Prelude.{◌≡◌, ◌<◌, ◌≤◌, Bool, length, IfOk, IfErr};
ghost use Rattle.table.specs.Table.{sought};

use crate::order::TotalOrder;
use std::cmp::Ordering;

// An entry, its key, and how two entries of one key join.
pub trait Entry: Copy {
    type Key: TotalOrder;

    ghost keyed: { Self → Self.Key };

    // Nothing is left under the key, so that the entry can go.
    ghost spent: { Self → Bool };

    // What two entries of one key are together.
    ghost joined: { Self → Self → Self };

    // The two can be joined: no sum leaves its type.
    ghost joinable: { Self → Self → Type 0 } = { λ _ _. Unit {0} };

    fn key(&self) -> Self::Key
        ensures value { result ≡ keyed self.now };

    fn is_spent(&self) -> bool
        ensures value { result ≡ spent self.now };

    fn join(self, other: Self) -> Self
        requires { joinable self other }
        ensures value { result ≡ joined self other };

    // A joined entry lies where the first one lay.
    ghost keeps: { (a b : Self) → keyed (joined a b) ≡ keyed a };
}

// Looks from the front, with one comparison a key, by a rule of the project, so it is no binary search: Ok has the place where the key stands,
// Err the one where it would come.
pub fn search<E: Entry>(entries: &[E], key: E::Key) -> Result<usize, usize>
    ensures value { result ≡ sought E.Key.TotalOrder.order E.keyed entries.now key }
    ensures there { IfOk result (λ at. at < length entries.now) }
    ensures bound { IfErr result (λ at. at ≤ length entries.now) }
{
    for (i, e) in entries.iter().enumerate() {
        match e.key().compare(key) {
            Ordering::Less => {}
            Ordering::Equal => return Ok(i),
            Ordering::Greater => return Err(i),
        }
    }
    Err(entries.len())
}
