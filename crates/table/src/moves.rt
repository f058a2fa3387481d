// How entries are found in a table, come into it and go.
ghost use Rattle.std.specs.Prelude.{◌≡◌, ◌<◌, ◌≤◌, false, not, length, take, drop, is_ok, if◌then◌else◌, filter, nat_le, IfOk, IfErr, replicate};
ghost use Rattle.std.specs.List.{AllByRecursion};
ghost use Rattle.table.specs.Table.{place, has_key, sought, entered};
ghost use Rattle.table.specs.Slice.{over, packed};
ghost use Rattle.table.specs.View.{slice_of, in_use};

use crate::entries::{Full, Table};
use crate::lookup::{Entry, search};

// The library's `fill` asks that a clone cannot fail, which of any E that is Copy is not known.
fn fill<E: Copy>(entries: &mut [E], blank: E)
    ensures after { entries.new ≡ replicate (length entries.old) blank }
{
    for e in entries.iter_mut() {
        *e = blank;
    }
}

impl<E: Entry> Table<'_, E> {
    pub fn find(&self, key: E::Key) -> Result<usize, usize>
        ensures value { result ≡ sought E.Key.TotalOrder.order E.keyed (in_use self.now) key }
        ensures there { IfOk result (λ at. at < self.now.count) }
        ensures bound { IfErr result (λ at. at ≤ self.now.count) }
    {
        search(&self.entries[0..self.count], key)
    }

    // Joins the entry of the same key, or takes its place between its neighbours.
    pub fn enter(&mut self, entry: E) -> Result<(), Full>
        requires joins { AllByRecursion (λ x. E.joinable x entry) (in_use self.old) }
        ensures answer { is_ok result ≡ nat_le (length (entered E.Key.TotalOrder.order E.keyed E.joined (in_use self.old) entry)) (length (slice_of self.old)) }
        ensures after { slice_of self.new ≡ (if is_ok result then over (entered E.Key.TotalOrder.order E.keyed E.joined (in_use self.old) entry) (slice_of self.old) else slice_of self.old) }
        ensures count { self.new.count ≡ (if is_ok result then length (entered E.Key.TotalOrder.order E.keyed E.joined (in_use self.old) entry) else self.old.count) }
        ensures lender { self.new.entries.ghost_name ≡ self.old.entries.ghost_name }
    {
        match self.find(entry.key()) {
            Ok(at) => {
                self.entries[at] = self.entries[at].join(entry);
                Ok(())
            }
            Err(at) => self.insert_at(at, entry),
        }
    }

    // Puts `entry`, whose key does not stand, at its place `at`.
    fn insert_at(&mut self, at: usize, entry: E) -> Result<(), Full>
        requires room { at ≤ self.old.count }
        requires place { at ≡ place E.Key.TotalOrder.order E.keyed (in_use self.old) (E.keyed entry) }
        requires missing { has_key E.Key.TotalOrder.order E.keyed (in_use self.old) (E.keyed entry) ≡ false }
        ensures answer { is_ok result ≡ nat_le (length (entered E.Key.TotalOrder.order E.keyed E.joined (in_use self.old) entry)) (length (slice_of self.old)) }
        ensures after { slice_of self.new ≡ (if is_ok result then over (entered E.Key.TotalOrder.order E.keyed E.joined (in_use self.old) entry) (slice_of self.old) else slice_of self.old) }
        ensures count { self.new.count ≡ (if is_ok result then length (entered E.Key.TotalOrder.order E.keyed E.joined (in_use self.old) entry) else self.old.count) }
        ensures lender { self.new.entries.ghost_name ≡ self.old.entries.ghost_name }
    {
        if self.count == self.entries.len() {
            return Err(Full);
        }
        self.entries.copy_within(at..self.count, at + 1);
        self.entries[at] = entry;
        self.count += 1;
        Ok(())
    }

    // Drops the spent entries, and blanks the places left over.
    pub fn sweep(&mut self, blank: E)
        ensures after { slice_of self.new ≡ over (packed self.old.count blank (filter (λ e. not (E.spent e)) (in_use self.old))) (slice_of self.old) }
        ensures count { self.new.count ≡ length (filter (λ e. not (E.spent e)) (in_use self.old)) }
        ensures lender { self.new.entries.ghost_name ≡ self.old.entries.ghost_name }
    {
        let kept = self.compact();
        fill(&mut self.entries[kept..self.count], blank);
        self.count = kept;
    }

    // Moves the entries that are not spent to the front, in their order, and answers how many they are.
    // Reading goes ahead of writing in the one slice, so that both places are counted.
    fn compact(&mut self) -> usize
        ensures front { take result (slice_of self.new) ≡ filter (λ e. not (E.spent e)) (in_use self.old) }
        ensures rest { drop self.old.count (slice_of self.new) ≡ drop self.old.count (slice_of self.old) }
        ensures bound { result ≤ self.old.count }
        ensures count { self.new.count ≡ self.old.count }
        ensures lender { self.new.entries.ghost_name ≡ self.old.entries.ghost_name }
    {
        let mut kept = 0;
        for i in 0..self.count {
            let e = self.entries[i];
            if !e.is_spent() {
                self.entries[kept] = e;
                kept += 1;
            }
        }
        kept
    }
}
