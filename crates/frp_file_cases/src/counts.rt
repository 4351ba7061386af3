/// The kinds of cases: of files, of forms at fault, of files of core items without a fault, and of names and types at fault.
pub const KINDS: [&str; 13] = [
    "ok", "end", "deep", "many", "senders", "expected", "typed", "unknown", "twice", "arity",
    "tied", "type", "untied",
];

/// How many cases of each kind were tried, in the order of `KINDS`, and how many of all came out as expected.
#[derive(Clone, Copy)]
pub struct Counts {
    pub of_kinds: [u64; 13],
    pub right: u64,
}

impl Counts {
    /// No cases.
    pub fn none() -> Counts {
        Counts {
            of_kinds: [0; 13],
            right: 0,
        }
    }

    /// Counts a case.
    pub fn count(&mut self, kind: &str) {
        for (i, other) in KINDS.iter().enumerate() {
            if *other == kind {
                self.of_kinds[i] = self.of_kinds[i].wrapping_add(1);
            }
        }
    }
}
