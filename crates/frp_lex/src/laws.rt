//! Laws of the definitions, each as what a function without a body ensures.

ghost use Rattle.frp_lex.specs.Laws.{LexedIsWritten, FaultIsFirst, SpelledIsLexed, LexedIsLawful, LexedIsSpelled, CanonicalStays, SpellingTells};

/// Bytes have some tokens exactly where they are these: each at its place in its one spelling, with blanks and comments
/// between.
pub fn lexed_is_written()
    ensures { LexedIsWritten }
{}

/// Bytes have a first fault exactly where they are some tokens, written so, and then what is at fault.
pub fn fault_is_first()
    ensures { FaultIsFirst }
{}

/// What lawful tokens are spelled has those tokens, places apart.
pub fn spelled_is_lexed()
    ensures { SpelledIsLexed }
{}

/// The tokens of bytes are lawful, and the line that they are spelled on has them again, places apart.
pub fn lexed_is_canonical()
    ensures lawful { LexedIsLawful }
    ensures spelled { LexedIsSpelled }
{}

/// A canonical line is its own, and different lawful tokens have different lines.
pub fn canonical_is_one()
    ensures stays { CanonicalStays }
    ensures tells { SpellingTells }
{}
