/// The numbers of a body's next hidden item and of the file's next hidden function.
#[derive(Clone, Copy)]
pub struct Next {
    pub items: u64,
    pub functions: u64,
}

/// Where a derived form stands, and which hidden names come next.
#[derive(Clone, Copy)]
pub struct Site {
    /// The place of the item.
    pub item: u64,
    /// The place of the form.
    pub form: u64,
    /// The number of the body's next hidden item.
    pub items: u64,
    /// The number of the file's next hidden function.
    pub functions: u64,
}
