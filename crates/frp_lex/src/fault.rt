use frp_base::Memory;

/// What is wrong with the bytes of a token.
#[derive(Clone, Copy, Debug, PartialEq, Eq)]
pub enum LexKind {
    /// A byte outside a comment that begins no token, a byte that a text cannot have, or a backslash in a text before another
    /// byte than a quote or a backslash. The place is that byte.
    Byte,
    /// A text that the input ends in. The place is the opening quote.
    Unclosed,
    /// A text whose value has more than 1,024 bytes. The place is the opening quote.
    LongText,
    /// An atom that begins with a digit or `-` and is no number.
    Number,
    /// An atom that begins with a letter or `_` and is neither name nor word, its length aside.
    Name,
    /// A name of more than 32 bytes.
    LongName,
}

/// The first fault of bytes: its place in the input, from 0, and its kind. An atom's fault is at its first byte.
#[derive(Clone, Copy, Debug, PartialEq, Eq)]
pub struct Lex {
    pub place: u64,
    pub kind: LexKind,
}

/// Why bytes have no tokens.
#[derive(Clone, Copy, Debug, PartialEq, Eq)]
pub enum LexStop {
    /// Their first fault.
    Fault(Lex),
    /// Memory is wanting.
    Memory,
}

impl From<Memory> for LexStop {
    ghost use Rattle.std.specs.Prelude.{◌≡◌};
    ghost use Rattle.frp_lex.specs.declared.fault.LexStop.TheVariants as stop;

    ghost from_gives = { λ _ e. e ≡ stop.Memory };

    fn from(_error: Memory) -> LexStop {
        LexStop::Memory
    }
}
