// A polynomial as its terms come in.
ghost use Rattle.std.specs.Prelude.{◌≡◌, ◌≤◌, true, length, take};
ghost use Rattle.batch.specs.Drafts.{canonical};

use polynomial::Term;

// The first `count` terms are in use: they ascend, and their coefficients fit.
// An array, as a model has: with a Vec, entering a term could fail for want of memory, which it cannot.
#[derive(Clone, Copy)]
pub struct Draft {
    pub terms: [Term; 40],
    pub count: usize,
    ghost long: { length terms ≡ 40 },
    ghost few: { count ≤ 40 },
    ghost sound: { canonical (take count terms) ≡ true },
}
