//! Laws of what is read: which files come of lawful tokens, and how much a file that is read has at most. Each is what a
//! function without a body ensures.

ghost use Rattle.frp_form.specs.LawfulReading.{ReadHasLawfulParts, ListensAreFew, SendersAreFew, OneSenderIsRead, SendsAreFew, TokensAreFew};

/// Lawful tokens, which those of an input are, are read as a file in which each written expression is lawful: its literal
/// texts, its numbers and its list forms are within their limits.
pub fn parts_are_lawful()
    ensures { ReadHasLawfulParts }
{}

/// A file that is read has four tokens for each of its listens, at most 16 senders, at most one where no more are allowed,
/// and at most 4,096 sends in each.
pub fn listens_are_few()
    ensures listens { ListensAreFew }
    ensures senders { SendersAreFew }
    ensures one_sender { OneSenderIsRead }
    ensures sends { SendsAreFew }
{}

/// An input has no more tokens than bytes.
pub fn tokens_are_few()
    ensures { TokensAreFew }
{}
