// The laws of searches, tables and monomials: the functions here only carry them.
ghost use Rattle.table.specs.Laws.{Turns, Chains, Exact, Splits, Tells, Reads, Once};
ghost use Rattle.table.specs.Laws.{StaysAscending, JoinsOwn, LeavesOthers, Grows, DropsAscend, DropsRead};
ghost use Rattle.table.specs.Laws.{DegreesAdd, SquaresEven, RootsSquare};

use crate::lookup::Entry;
use crate::order::TotalOrder;

// The keys are in a total order, in which only equal keys rank equal.
pub fn orders_hold<K: TotalOrder>()
    ensures laws { Turns K.order × Chains K.order × Exact K.order }
{}

// A search splits ascending entries at its place, and finds a key exactly if it stands, which it does once.
pub fn searches_hold<E: Entry>()
    ensures laws { Splits E.Key.TotalOrder.order E.keyed × Tells E.Key.TotalOrder.order E.keyed × Reads E.Key.TotalOrder.order E.keyed × Once E.Key.TotalOrder.order E.keyed }
{}

// An entry that comes joins the one of its key, and leaves the table ascending and all other keys as they were.
pub fn entering_holds<E: Entry>()
    ensures laws { StaysAscending E.Key.TotalOrder.order E.keyed E.joined × JoinsOwn E.Key.TotalOrder.order E.keyed E.joined × LeavesOthers E.Key.TotalOrder.order E.keyed E.joined × Grows E.Key.TotalOrder.order E.keyed E.joined }
{}

// Entries that go leave the table ascending, and those that stay as they were.
pub fn dropping_holds<E: Entry>()
    ensures laws { DropsAscend E.Key.TotalOrder.order E.keyed × DropsRead E.Key.TotalOrder.order E.keyed }
{}

// Degrees add, and roots undo squares.
pub fn monomials_hold()
    ensures laws { DegreesAdd × SquaresEven × RootsSquare }
{}
