// Monomials and their order; a table of seats, of which the highest price bid is kept and those bid at 0 go.
ghost use Rattle.std.specs.Prelude.{max, ◌==◌};
ghost use Rattle.std.proofs.Common.{rules};

use crate::entries::{Full, Table};
use crate::exponents::*;
use crate::lookup::Entry;
use crate::order::TotalOrder;
use std::cmp::Ordering;
use std::test::Fail;

#[test]
fn monomials_have_degree_and_root(rt: HostRuntime) {
    let rows = [
        ([0, 0, 0, 0, 0, 0], 0, true, [0, 0, 0, 0, 0, 0]),
        ([1, 0, 0, 0, 0, 0], 1, false, [0, 0, 0, 0, 0, 0]),
        ([2, 0, 4, 0, 0, 0], 6, true, [1, 0, 2, 0, 0, 0]),
        (
            [255, 255, 255, 255, 255, 255],
            1530,
            false,
            [127, 127, 127, 127, 127, 127],
        ),
    ];
    for (monomial, sum, even, root) in rows {
        assert_eq!(rt; degree(monomial), sum);
        assert_eq!(rt; all_even(monomial), even);
        assert_eq!(rt; square_root(monomial), root);
    }
    assert_eq!(rt;
        product([1, 0, 2, 0, 0, 0], [0, 3, 1, 0, 0, 8]),
        [1, 3, 3, 0, 0, 8]
    );
}

#[test]
fn monomials_ascend(rt: HostRuntime) {
    let rows = [
        ([0, 0, 0, 0, 0, 0], [0, 0, 0, 0, 0, 1], Ordering::Less),
        ([1, 0, 0, 0, 0, 0], [0, 1, 0, 0, 0, 0], Ordering::Less),
        ([0, 2, 0, 0, 0, 0], [1, 0, 0, 0, 0, 0], Ordering::Greater),
        ([1, 0, 1, 0, 0, 0], [1, 0, 1, 0, 0, 0], Ordering::Equal),
    ];
    for (a, b, order) in rows {
        assert_eq!(rt;
            <Monomial as crate::order::TotalOrder>::compare(a, b),
            order
        );
    }
}

#[derive(Clone, Copy)]
struct Bid {
    seat: u8,
    price: u8,
}

impl Entry for Bid {
    type Key = u8;

    ghost keyed = { λ b. b.seat };

    ghost spent = { λ b. (b.price == 0) };

    ghost joined = { λ a b. record { seat = a.seat; price = max a.price b.price } };

    ghost keeps = { Prim.search rules };

    fn key(&self) -> u8 {
        self.seat
    }

    fn is_spent(&self) -> bool {
        self.price == 0
    }

    fn join(self, other: Bid) -> Bid {
        Bid {
            seat: self.seat,
            price: self.price.max(other.price),
        }
    }
}

const NONE: Bid = Bid { seat: 0, price: 0 };

// Answers the count afterwards.
fn place_bid(bids: &mut [Bid; 3], count: usize, seat: u8, price: u8) -> Result<usize, Full> {
    if count > 3 {
        return Err(Full);
    }
    let mut table = Table {
        entries: bids,
        count,
    };
    table.enter(Bid { seat, price })?;
    Ok(table.count)
}

#[test]
fn bids_join_and_go(rt: HostRuntime) -> Result<(), Fail> {
    let mut bids = [NONE; 3];
    let count = place_bid(&mut bids, 0, 7, 2)?;
    let count = place_bid(&mut bids, count, 4, 0)?;
    let count = place_bid(&mut bids, count, 7, 5)?;
    let count = place_bid(&mut bids, count, 9, 1)?;
    assert!(rt; place_bid(&mut bids, count, 8, 1).is_err());
    assert!(rt; count == 3);
    let mut table = Table {
        entries: &mut bids,
        count,
    };
    assert_eq!(rt; table.find(7), Ok(1));
    assert_eq!(rt; table.find(8), Err(2));
    table.sweep(NONE);
    assert_eq!(rt; table.count, 2);
    for (place, seat, price) in [(0, 7, 5), (1, 9, 1), (2, 0, 0)] {
        assert_eq!(rt; bids[place].seat, seat);
        assert_eq!(rt; bids[place].price, price);
    }
    Ok(())
}
