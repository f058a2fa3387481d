// Figures of the three methods and of joint ranges.
use crate::joint::Parabola;
use crate::meet::Meet;
use crate::method::Ranging;
use crate::plain::Plain;
use crate::quadratic::Quadratic;
use interval::Interval;
use polynomial::{Polynomial, Term};

// 27 + 81u + 81u²
const CUBE: [Term; 3] = [
    Term {
        monomial: [0, 0, 0, 0, 0, 0],
        coefficient: Interval {
            lower: 27,
            upper: 27,
        },
    },
    Term {
        monomial: [1, 0, 0, 0, 0, 0],
        coefficient: Interval {
            lower: 81,
            upper: 81,
        },
    },
    Term {
        monomial: [2, 0, 0, 0, 0, 0],
        coefficient: Interval {
            lower: 81,
            upper: 81,
        },
    },
];

// [-2, 3]u + 4w + 5u² - 2w²: only w is paired, and its vertex lies at the edge.
const MIXED: [Term; 4] = [
    Term {
        monomial: [1, 0, 0, 0, 0, 0],
        coefficient: Interval {
            lower: -2,
            upper: 3,
        },
    },
    Term {
        monomial: [0, 1, 0, 0, 0, 0],
        coefficient: Interval { lower: 4, upper: 4 },
    },
    Term {
        monomial: [2, 0, 0, 0, 0, 0],
        coefficient: Interval { lower: 5, upper: 5 },
    },
    Term {
        monomial: [0, 2, 0, 0, 0, 0],
        coefficient: Interval {
            lower: -2,
            upper: -2,
        },
    },
];

// As in the tests of other crates, which share no code with these.
fn ends(lower: i64, upper: i64) -> Interval {
    Interval { lower, upper }
}

#[test]
fn ranges(rt: HostRuntime) {
    let both = Meet {
        first: Plain,
        second: Quadratic,
    };
    let cube = Polynomial { terms: &CUBE };
    let mixed = Polynomial { terms: &MIXED };
    assert_eq!(rt; Plain.range(cube), ends(-54, 189));
    assert_eq!(rt; Quadratic.range(cube), ends(6, 189));
    assert_eq!(rt; both.range(cube), ends(6, 189));
    assert_eq!(rt; Plain.range(mixed), ends(-9, 12));
    assert_eq!(rt; Quadratic.range(mixed), ends(-9, 10));
}

// The vertex within, at an end, past it, on a falling parabola, and none.
#[test]
fn joints(rt: HostRuntime) {
    assert_eq!(rt;
        Parabola {
            square: 9,
            linear: 18
        }
        .range(),
        ends(-9, 27)
    );
    assert_eq!(rt;
        Parabola {
            square: 81,
            linear: 81
        }
        .range(),
        ends(-21, 162)
    );
    assert_eq!(rt;
        Parabola {
            square: 3,
            linear: -7
        }
        .range(),
        ends(-4, 10)
    );
    assert_eq!(rt;
        Parabola {
            square: -4,
            linear: 3
        }
        .range(),
        ends(-7, 1)
    );
    assert_eq!(rt;
        Parabola {
            square: 0,
            linear: 5
        }
        .range(),
        ends(-5, 5)
    );
    assert_eq!(rt;
        Parabola {
            square: 0,
            linear: 0
        }
        .range(),
        ends(0, 0)
    );
}
