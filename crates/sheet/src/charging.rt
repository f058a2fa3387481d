// Whether an office can be charged, and charging it.
ghost use Rattle.std.specs.Prelude.{◌≡◌, true, sum_by};
ghost use Rattle.sheet.specs.State.{can_charge, affordable, charged_state};

use crate::account::Account;
use crate::record::SheetRecord;
use table::{Table, search};

impl SheetRecord {
    // The office has an account, or one can be opened.
    pub fn can_charge(&self, office: u64) -> bool
        ensures value { result ≡ can_charge self.now office }
    {
        search(&self.accounts[0..self.offices], office).is_ok() || self.offices < 8
    }

    // The pairs of all accounts.
    fn pairs_charged(&self) -> u64
        ensures value { result ≡ sum_by (λ a. a.pairs) self.now.accounts }
    {
        self.accounts[0..self.offices]
            .iter()
            .map(|entry| entry.pairs)
            .sum()
    }

    // With these pairs and those of all accounts the allowance is not passed.
    pub fn is_affordable(&self, pairs: u64) -> bool
        ensures value { result ≡ affordable self.now pairs }
    {
        pairs <= self.allowance - self.pairs_charged()
    }

    // The pairs are added to the office's account, which is opened if there is none.
    pub fn charge(&mut self, office: u64, pairs: u64)
        requires room { can_charge self.old office ≡ true }
        requires paid { affordable self.old pairs ≡ true }
        ensures after { self.new ≡ charged_state self.old office pairs }
    {
        let mut table = Table {
            count: self.offices,
            entries: &mut self.accounts,
        };
        let _ = table.enter(Account { office, pairs });
        self.offices = table.count;
    }
}
