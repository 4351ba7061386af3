//! Laws of the core file that a file stands for, each as what a function without a body ensures.

ghost use Rattle.frp_sugar.specs.Laws.{CoreStays, ExpandedIsCore};

/// The core file of a file has no derived form.
pub fn expanded_is_core()
    ensures { ExpandedIsCore }
{}

/// A file without derived forms stands for itself.
pub fn core_stays()
    ensures { CoreStays }
{}
