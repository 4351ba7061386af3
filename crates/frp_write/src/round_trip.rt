//! Laws of the canonical text, each as what a function without a body ensures.

ghost use Rattle.frp_write.specs.RoundTrip.{WrittenIsRead, CanonicalIsRead, CanonicalTells, ReadIsLawful};

/// Tokens of the kinds that a lawful file is written with are read as that file, places apart.
pub fn written_is_read()
    ensures { WrittenIsRead }
{}

/// The canonical text of a lawful file is lexed, and what it is lexed as is read as that file, places apart.
pub fn canonical_is_read()
    ensures { CanonicalIsRead }
{}

/// Lawful files of one canonical text are the same, places apart.
pub fn canonical_tells()
    ensures { CanonicalTells }
{}

/// What the tokens of an input are read as is lawful.
pub fn read_is_lawful()
    ensures { ReadIsLawful }
{}
