//! Laws of the core file that a file stands for, each as what a function without a body ensures.

ghost use Rattle.frp_sugar.specs.LawfulExpanding.{ExpandedIsLawful, ListensStay, SendersStay};

/// Where each written expression of a file is lawful, so is each of its core file: what is made for a derived form keeps
/// within the limits on literal texts, numbers and list forms.
pub fn expanded_is_lawful()
    ensures { ExpandedIsLawful }
{}

/// A core file listens to what its file does, and has the same senders.
pub fn senders_stay()
    ensures listens { ListensStay }
    ensures senders { SendersStay }
{}
