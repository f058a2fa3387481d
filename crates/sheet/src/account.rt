// The pairs of an office, and how they lie in a table.
ghost use Rattle.std.specs.Prelude.{◌+◌, ◌^◌, ◌<◌, false};
ghost use Rattle.sheet.specs.State.{account};
ghost use Rattle.std.proofs.Common.{rules};

use table::Entry;

// An office, with the pairs that its turns were charged.
#[derive(Clone, Copy, Debug)]
pub struct Account {
    pub office: u64,
    pub pairs: u64,
}

// Accounts of one office add their pairs; none goes again.
impl Entry for Account {
    type Key = u64;

    ghost keyed = { λ a. a.office };

    ghost spent = { λ _. false };

    ghost joined = { λ a b. account a.office (a.pairs + b.pairs) };

    ghost joinable = { λ a b. a.pairs + b.pairs < 2 ^ 64 };

    ghost keeps = { Prim.search rules };

    fn key(&self) -> u64 {
        self.office
    }

    fn is_spent(&self) -> bool {
        false
    }

    fn join(self, other: Account) -> Account {
        Account {
            pairs: self.pairs + other.pairs,
            ..self
        }
    }
}
