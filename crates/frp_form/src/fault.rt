use frp_base::Memory;

/// What is wrong with the tokens of a file.
#[derive(Clone, Copy, Debug, PartialEq, Eq)]
pub enum FormKind {
    /// The input ends where the grammar wants a token. The place is the input's length.
    End,
    /// A type or expression nested deeper than 16 levels. The place is the parenthesis or atom of the 17th level.
    Deep,
    /// The 1,025th item of a list form, the 17th sender, or the 4,097th send of a sender.
    Many,
    /// A second sender, where one alone is allowed.
    Senders,
    /// A token that the grammar does not allow there.
    Expected,
}

/// The first fault of a list of tokens: its place in the input, from 0, and its kind.
#[derive(Clone, Copy, Debug, PartialEq, Eq)]
pub struct FormFault {
    pub place: u64,
    pub kind: FormKind,
}

/// Why tokens are no file.
#[derive(Clone, Copy, Debug, PartialEq, Eq)]
pub enum FormStop {
    /// Their first fault.
    Fault(FormFault),
    /// Memory is wanting.
    Memory,
}

impl From<Memory> for FormStop {
    ghost use Rattle.std.specs.Prelude.{◌≡◌};
    ghost use Rattle.frp_form.specs.declared.fault.FormStop.TheVariants as stop;

    ghost from_gives = { λ _ e. e ≡ stop.Memory };

    fn from(_error: Memory) -> FormStop {
        FormStop::Memory
    }
}
