/// A place and its new rank.
#[derive(Clone, Copy, Debug)]
pub struct Write {
    pub place: u64,
    pub rank: u64,
}
