ghost use Rattle.frp_history.specs.Laws.{LegalAfter, LegalBefore, OnlySendsHaveMoments, SendsAreSendable, WindowsEnd};

/// The window that is seen before a place is what happened at the node before it.
pub fn windows_end()
    ensures { WindowsEnd }
{}

/// A legal history without its last entry is legal, with the moments before that entry's place.
pub fn legal_before()
    ensures { LegalBefore }
{}

/// A legal history with one entry more is legal, with the moments of that entry's transaction.
pub fn legal_after()
    ensures { LegalAfter }
{}

/// Each send of a legal history is to a sink that was live before its place, of a value of its type among the nodes that
/// were.
pub fn sends_are_sendable()
    ensures { SendsAreSendable }
{}

/// An entry that sends nothing, as an empty group or a refused send, has no moments; where it is accepted, it is with none.
pub fn only_sends_have_moments()
    ensures { OnlySendsHaveMoments }
{}
