/// A call that was entered: who called, with which command, and what was replied.
#[derive(Drop)]
pub struct Entry<C, R> {
    /// The number of the caller's pass.
    pub caller: u32,
    pub cmd: C,
    pub reply: R,
}
