use frp_base::Memory;
use frp_expr::TypeFault;
use frp_form::FormFault;
use frp_lex::Lex;

/// The first fault of a text, of the earliest pass that finds one.
#[derive(Clone, Copy, Debug, PartialEq, Eq)]
pub enum Fault {
    Token(Lex),
    Form(FormFault),
    Type(TypeFault),
}

/// Why a text has no program.
#[derive(Clone, Copy, Debug, PartialEq, Eq)]
pub enum Refused {
    /// It is no file: its first fault.
    Fault(Fault),
    /// It is a file that cannot be run yet.
    Unbuilt,
}

/// Why reading a text stopped.
#[derive(Clone, Copy, Debug, PartialEq, Eq)]
pub enum TextStop {
    /// The text has no program.
    Refused(Refused),
    /// Memory is wanting.
    Memory,
}

impl From<Memory> for TextStop {
    ghost use Rattle.std.specs.Prelude.{◌≡◌};
    ghost use Rattle.frp_run.specs.declared.refused.TextStop.TheVariants as stop;

    ghost from_gives = { λ _ e. e ≡ stop.Memory };

    fn from(_error: Memory) -> TextStop {
        TextStop::Memory
    }
}
