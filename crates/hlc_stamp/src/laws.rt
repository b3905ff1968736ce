//! The laws of the order of stamps and of ranks. Each is the contract of a function that does nothing.

ghost use Rattle.hlc_stamp.specs.Order.{RanksAreCompared, StampsAreCompared};

/// Stamps are compared in dictionary order, and ranks by their stamps and then by their nodes: the tests by which
/// entries and cuts are defined are the order itself.
pub fn tests_are_the_order()
    ensures stamps { StampsAreCompared }
    ensures ranks { RanksAreCompared }
{}
