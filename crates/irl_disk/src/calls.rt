/// A call of a store.
#[derive(Debug, Drop)]
pub enum Call {
    /// A length or a read.
    Query,
    Write { file: u16, at: u64, bytes: Vec<u8> },
    Cut { file: u16, to: u64 },
    Sync { file: u16 },
}

/// A call that was made, and whether it was done. One that was not done failed.
#[derive(Debug, Drop)]
pub struct LoggedCall {
    pub call: Call,
    pub is_done: bool,
}

/// What a stop inside a call leaves of each file.
#[derive(Clone, Copy, Debug, PartialEq, Eq)]
pub enum Part {
    /// What a read gave at the file's last sync.
    Old,
    /// What a read gives.
    New,
    /// What a read gives, with the byte `A5` at each odd place that was written since the last sync.
    Torn,
}
