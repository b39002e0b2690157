//! The laws of orders of linking and of refusals.

ghost use Rattle.ep_linkable.specs.Laws.{ListsAreLinkedAlike, ListsPassAlike, ListsRefuseAlike, OrdersAreOne};
ghost use Rattle.ep_linkable.specs.Laws.{RefusalsAreOne, RefusedHaveNoOrder};

/// Does nothing: its contract states what holds of every list of units. Units have one order in which they are linked,
/// or one first refusal, but for which circle is named, and never both; and in which order they are listed plays no
/// part.
pub fn laws_of_link_order()
    ensures refusals { RefusalsAreOne }
    ensures refused { RefusedHaveNoOrder }
    ensures orders { OrdersAreOne }
    ensures lists_refused { ListsRefuseAlike }
    ensures lists_linked { ListsAreLinkedAlike }
    ensures lists_passed { ListsPassAlike }
{}
