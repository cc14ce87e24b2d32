ghost use Rattle.commute_ops.specs.Orders.{IsFreeOfOrder, ValuesAreFreeOfOrder};

/// If any two operations commute, a list of operations gives the same value in any order. It does nothing: its contract
/// is the law.
pub fn any_order_gives_the_same<S, O>()
    ensures { IsFreeOfOrder S O }
{}

/// A list of operations on an item's value gives the same value in any order. It does nothing: its contract is the law.
pub fn any_order_of_operations()
    ensures { ValuesAreFreeOfOrder }
{}
