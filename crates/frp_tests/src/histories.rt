use frp_history::{
    Key, legal_after, legal_before, only_sends_have_moments, sends_are_sendable, windows_end,
};

#[test]
fn laws_of_histories_and_keys(rt: HostRuntime) {
    windows_end();
    legal_before();
    legal_after();
    sends_are_sendable();
    only_sends_have_moments();
    let key = Key { slot: 0, place: 3 };
    assert!(rt; key == Key { slot: 0, place: 3 });
    assert!(rt; key != Key { slot: 1, place: 3 });
    assert!(rt; key != Key { slot: 0, place: 4 });
}
