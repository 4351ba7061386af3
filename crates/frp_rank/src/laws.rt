ghost use Rattle.frp_rank.specs.Laws.{NoChainWhereLower, LiftKeepsLower, TurnedIsClosed, RenumberingKeeps};

/// Law: where links lead to lower ranks there is no closed chain.
pub fn no_chain_where_lower()
    ensures { NoChainWhereLower }
{}

/// Law: a set of places that rises by one number keeps links leading lower, where it has each place that is linked to one of it too
/// closely.
pub fn lift_keeps_lower()
    ensures { LiftKeepsLower }
{}

/// Law: ranks that are renumbered keep their order.
pub fn renumbering_keeps_order()
    ensures { RenumberingKeeps }
{}

/// Law: a path along falling ranks that a link closes is a closed chain, begun with its least place.
pub fn turned_path_is_closed()
    ensures { TurnedIsClosed }
{}
