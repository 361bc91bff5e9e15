//! What is true of the order.

ghost use Rattle.wdl_order.specs.Laws.{CircularIsNothing, LeastOrders, NothingIsCircular, OneOrder};

/// To take again and again the first member that is ready gives the least dependency order: each
/// position once, each member after those that it needs, and of all such orders this one's list of
/// positions is the least, compared from the left. It gives nothing exactly where there is no
/// dependency order.
pub fn orders_are_least()
    ensures least { LeastOrders }
    ensures one { OneOrder }
    ensures nothing { NothingIsCircular }
    ensures circular { CircularIsNothing }
{}
