/// What the program does, by the first of its words.
#[derive(Clone, Copy, Debug, PartialEq, Eq)]
pub enum Mode {
    /// It runs the file and writes the report of its session.
    Replay,
    /// It writes the canonical text of the file and the table of its names.
    Check,
}
