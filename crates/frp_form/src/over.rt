use crate::fault::FormKind;

/// What a list of forms comes to that goes on past its limit.
#[derive(Clone, Copy)]
pub enum Over {
    /// There is no limit: each form takes a token, and the input has ended.
    End,
    /// One send too many.
    Send,
    /// One sender too many.
    Sender(FormKind),
}
