use frp_graph::{
    Limits, allowed_stays, before_is_strict, births_are_one, born_in_order, earlier_moments_stay,
    facts_are_found, files_are_whole, firsts_are_typed, instances_are_there, instances_stay,
    lines_are_allowed, links_lead, names_are_given, none_unsent, one_occurrence, rings_turn,
    rows_agree, rows_are_typed, sends_are_combined, steps_tell_apart, streams_have_no_value,
    transactions_are_due,
};

#[test]
fn laws_of_traces(_rt: HostRuntime) {
    one_occurrence();
    facts_are_found();
    steps_tell_apart();
    before_is_strict();
    earlier_moments_stay();
    transactions_are_due();
    none_unsent();
    births_are_one();
    born_in_order();
    streams_have_no_value();
    sends_are_combined();
    rings_turn();
}

#[test]
fn laws_of_shapes(_rt: HostRuntime) {
    instances_stay();
    rows_agree();
    links_lead();
    names_are_given();
    files_are_whole();
    allowed_stays();
    lines_are_allowed();
    rows_are_typed();
    firsts_are_typed();
    instances_are_there();
}

#[test]
fn limits_of_the_program(rt: HostRuntime) {
    let limits = Limits::program();
    assert!(rt; limits.moments == 4096 && limits.nodes == 65536 && limits.entries == 1000000);
    assert!(rt; limits.senders == 16 && limits.workers == 16 && limits.sends == 4096);
}
