ghost use Rattle.frp_graph.specs.Laws.{OneOccurrence, FactsAreFound, StepsTellApart, TransactionsAreDue, NoneUnsent, BirthsAreOne, BornInOrder, RingsTurn, BeforeIsStrict, EarlierMomentsStay, SendsAreCombined, StreamsHaveNoValue};

/// In a trace that meets the equations, a node has at most one occurrence at a time.
pub fn one_occurrence()
    ensures { OneOccurrence }
{}

/// A node's occurrence at a moment is the value of its facts there, so these have one value.
pub fn facts_are_found()
    ensures { FactsAreFound }
{}

/// A cell's values before and after a moment differ exactly where it steps to another value.
pub fn steps_tell_apart()
    ensures { StepsTellApart }
{}

/// A cell's value before a moment depends on no occurrence or step at it.
pub fn before_is_strict()
    ensures { BeforeIsStrict }
{}

/// Whether a moment is one that the program has depends on it and on those before: one that is added to a trace leaves
/// the earlier ones as they were.
pub fn earlier_moments_stay()
    ensures { EarlierMomentsStay }
{}

/// A transaction's moments are exactly its due times, in order.
pub fn transactions_are_due()
    ensures { TransactionsAreDue }
{}

/// A place that is not the build's and of no send has no moments.
pub fn none_unsent()
    ensures { NoneUnsent }
{}

/// Nodes that are born one by one as they were planned, by rising name, are those of the plans.
pub fn born_in_order()
    ensures { BornInOrder }
{}

/// What is born at a time is determined by what is seen then.
pub fn births_are_one()
    ensures { BirthsAreOne }
{}

/// A node that is never born with a first value, as a stream, has no value before or after a moment.
pub fn streams_have_no_value()
    ensures { StreamsHaveNoValue }
{}

/// What is sent to a sink at a time counts in its order: a later send is combined with what the earlier ones gave.
pub fn sends_are_combined()
    ensures { SendsAreCombined }
{}

/// Distinct names, each linked to the next and the last to the first, may be turned to begin with the least, and then they are
/// a closed chain, and one list.
pub fn rings_turn()
    ensures { RingsTurn }
{}
