/// What the program does.
#[derive(Clone, Copy, Debug, PartialEq, Eq)]
pub enum Mode {
    /// It runs the senders of a file side by side and writes the report.
    Run,
    /// It writes the canonical text of a file and the table of its names.
    Check,
    /// It runs the one sender of a file and writes the report.
    Replay,
    /// It writes a generated file.
    Gen,
}

/// What a command line asks for. Each option has a value in every mode; a mode uses those that it knows.
#[derive(Clone, Copy, Debug, PartialEq, Eq)]
pub struct Line {
    pub mode: Mode,
    /// How many threads may work on one moment, from 1 to 16; 1 where the option isn't used.
    pub workers: u32,
    /// How many items a generated file has, from 1 to 4,000; 10 where the option isn't used.
    pub count: u64,
    /// The state from which a generated file is drawn, from 0 to 2,147,483,647; 0 where the option isn't used.
    pub start: u64,
}

/// Why words give no line.
#[derive(Clone, Copy, Debug, PartialEq, Eq)]
pub enum WordsStop {
    /// The words are no command line.
    Usage,
    /// Memory is wanting. Words are read without any, so this isn't answered.
    Memory,
}
