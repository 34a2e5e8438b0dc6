ghost use Rattle.std.specs.Prelude.{◌≡◌, nat_eq};

/// What a bench counted.
#[derive(Clone, Copy)]
pub struct Score {
    /// How many calls answered what they should.
    pub right: u64,
    /// How many calls there were to make.
    pub calls: u64,
    /// What was counted beside.
    pub beside: Option<Beside>,
}

/// What a bench counted beside its calls.
#[derive(Clone, Copy)]
pub enum Beside {
    /// Of a crawl.
    Crawl {
        /// Links from one domain to another, each counted once.
        pairs: u64,
        passes: u64,
    },
    /// Of the pages of a tape.
    Links {
        /// How many links are web pages.
        links: u64,
        /// The sum of their keys.
        keys: u64,
    },
}

impl Score {
    /// Whether each call answered what it should.
    pub fn is_full(self) -> bool
        ensures { result ≡ nat_eq self.right self.calls }
    {
        self.right == self.calls
    }
}

/// So many where it holds, else none.
pub fn all_if(holds: bool, calls: u64) -> u64 {
    if holds { calls } else { 0 }
}
