// What may go to other threads.
use crate::{Machine, Pass, Room};

fn may_go<T: Send>() {}

fn may_be_shared<T: Sync>() {}

/// Where a machine may go to another thread, so may its room and its passes, and threads may share the room.
pub fn rooms_cross_threads<M: Machine + Send>() {
    may_go::<Room<M>>();
    may_go::<Pass<M>>();
    may_be_shared::<Room<M>>();
}
