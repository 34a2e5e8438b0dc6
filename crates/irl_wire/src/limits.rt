use std::time::Duration;

/// How long a connection is waited for.
#[derive(Clone, Copy, Debug, PartialEq, Eq, Drop)]
pub(crate) struct Limits {
    /// For its connect, and for each read and each write.
    pub(crate) call: Duration,
    /// From its connect to its end.
    pub(crate) whole: Duration,
}

impl Limits {
    /// Those of a crawl: 30 seconds for each call, and 120 for all of a fetch.
    pub(crate) fn of_fetches() -> Limits {
        Limits {
            call: Duration::from_secs(30),
            whole: Duration::from_secs(120),
        }
    }

    /// How long the next call may take once so much time has gone: nothing where none is left.
    pub(crate) fn left(&self, gone: Duration) -> Option<Duration> {
        match self.whole.checked_sub(gone) {
            Some(left) if left.is_zero() => None,
            Some(left) => Some(left.min(self.call)),
            None => None,
        }
    }
}
