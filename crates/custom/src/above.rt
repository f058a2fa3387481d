// A method that asks two others and takes the range with the smaller upper end, both of its ends.
ghost use Rattle.custom.specs.Above.{tighter_above_method};

use interval::Interval;
use polynomial::Polynomial;
use ranging::Ranging;

#[derive(Clone, Copy, Debug)]
pub struct TighterAbove<A, B> {
    pub first: A,
    pub second: B,
}

impl<A: Ranging, B: Ranging> Ranging for TighterAbove<A, B> {
    ghost meaning = { λ x. tighter_above_method (A.Ranging.meaning x.first) (B.Ranging.meaning x.second) };

    fn range(&self, polynomial: Polynomial<'_>) -> Interval {
        let first = self.first.range(polynomial);
        let second = self.second.range(polynomial);
        if first.upper <= second.upper {
            first
        } else {
            second
        }
    }
}
