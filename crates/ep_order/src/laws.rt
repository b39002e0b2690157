//! The laws of orders and circles.

ghost use Rattle.ep_order.specs.Laws.{OrdersAreOne, CirclesHaveNoOrder, ListsPlayNoPart};

/// Does nothing: its contract states what holds of every system of units. It has at most one order, and none where it
/// has a circle; and in which order its units are listed plays no part.
pub fn laws_of_activation()
    ensures one { OrdersAreOne }
    ensures circles { CirclesHaveNoOrder }
    ensures lists { ListsPlayNoPart }
{}
