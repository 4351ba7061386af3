/// How a crew divides a list among workers.
#[derive(Clone, Copy)]
pub enum Plan<'a, R> {
    /// The caller's thread does all.
    Alone,
    /// The list is halved into at most `workers` pieces, each done by a thread of its own.
    Halves { hand: &'a R, workers: u32 },
    /// The list is spread over as many threads as there are processors.
    Spread { hand: &'a R },
}
