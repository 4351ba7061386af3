/// How a file is read.
#[derive(Clone, Copy, Debug)]
pub struct Reading {
    /// Whether a second sender is a fault.
    pub one_sender: bool,
}
