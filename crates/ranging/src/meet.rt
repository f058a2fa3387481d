// The meet of two methods.
ghost use Rattle.ranging.specs.NamedMethods.{meet_method};

use crate::method::Ranging;
use interval::Interval;
use polynomial::Polynomial;

// The larger lower end and the smaller upper end of two methods.
#[derive(Clone, Copy, Debug)]
pub struct Meet<A, B> {
    pub first: A,
    pub second: B,
}

impl<A: Ranging, B: Ranging> Ranging for Meet<A, B> {
    ghost meaning = { λ x. meet_method (A.Ranging.meaning x.first) (B.Ranging.meaning x.second) };

    fn range(&self, polynomial: Polynomial<'_>) -> Interval {
        self.first
            .range(polynomial)
            .meet(self.second.range(polynomial))
    }
}
