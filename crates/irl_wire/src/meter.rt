use std::fmt;
use std::fmt::{Display, Formatter};
use std::io::Eprint;
use std::sync::atomic::{AtomicBool, AtomicU64, Ordering};
use std::time::{Duration, Instant};

/// How far apart two lines of progress are at least, in milliseconds.
const APART: u64 = 500;

const MEBIBYTE: u64 = 1_048_576;

/// What a crawl has come to, as all of its links count it together, and a line of that on the terminal of standard
/// error.
///
/// Where it isn't on, nothing is counted and nothing written.
#[derive(Drop)]
pub struct Meter<R> {
    rt: R,
    // When it began, where it is on.
    began: Option<Instant>,
    fetches: AtomicU64,
    bytes: AtomicU64,
    // How many milliseconds after the beginning the last line was written.
    last: AtomicU64,
    is_shown: AtomicBool,
}

impl<R: Eprint + std::time::Clock + Drop> Meter<R> {
    /// A meter that begins now. It isn't on where the time can't be told.
    pub fn new(rt: R, is_on: bool) -> Meter<R> {
        let began = if is_on { Instant::now(&rt).ok() } else { None };
        Meter {
            rt,
            began,
            fetches: AtomicU64::new(0),
            bytes: AtomicU64::new(0),
            last: AtomicU64::new(0),
            is_shown: AtomicBool::new(false),
        }
    }

    /// Takes the line away, where one is shown.
    pub fn clear(&self) {
        if self.is_shown.swap(false, Ordering::SeqCst) {
            let _ = self.rt.eprint("\r\x1b[K");
        }
    }

    /// Counts a fetch that ended.
    pub(crate) fn count_fetch(&self) {
        if let Some(began) = &self.began {
            self.fetches.fetch_add(1, Ordering::SeqCst);
            self.show(began);
        }
    }

    /// Counts bytes that were read.
    pub(crate) fn count_bytes(&self, count: usize) {
        if let Some(began) = &self.began {
            self.bytes.fetch_add(count as u64, Ordering::SeqCst);
            self.show(began);
        }
    }

    // Shows what there is, where the last line was written long enough ago. The first comes that long after the
    // beginning.
    fn show(&self, began: &Instant) {
        let Ok(gone) = began.elapsed(&self.rt) else {
            return;
        };
        let millis = millis_of(gone);
        let last = self.last.load(Ordering::SeqCst);
        let is_due = millis.saturating_sub(last) >= APART;
        // Of several links for which it is due, one writes it.
        if is_due && self.take_turn(last, millis) {
            self.is_shown.store(true, Ordering::SeqCst);
            let _ = self.rt.eprint(Line {
                fetches: self.fetches.load(Ordering::SeqCst),
                bytes: self.bytes.load(Ordering::SeqCst),
                millis,
            });
        }
    }

    // Whether no other link wrote a line since the last one.
    fn take_turn(&self, last: u64, millis: u64) -> bool {
        self.last
            .compare_exchange(last, millis, Ordering::SeqCst, Ordering::SeqCst)
            .is_ok()
    }
}

fn millis_of(gone: Duration) -> u64 {
    u64::try_from(gone.as_millis()).unwrap_or(u64::MAX)
}

/// A line of progress. It begins at the left, and takes away what stood there.
#[derive(Clone, Copy, Drop)]
pub(crate) struct Line {
    pub(crate) fetches: u64,
    pub(crate) bytes: u64,
    pub(crate) millis: u64,
}

impl Display for Line {
    fn fmt<W: fmt::Write>(&self, f: &mut Formatter<W>) -> fmt::Result {
        let rate = self.fetches.saturating_mul(1_000) / self.millis.max(1);
        let mebibytes = self.bytes / MEBIBYTE;
        let tenths = self.bytes % MEBIBYTE * 10 / MEBIBYTE;
        let seconds = self.millis / 1_000;
        write!(
            f,
            "\r{} fetched, {} a second, {}.{} MiB, {}:{:02}\x1b[K",
            self.fetches,
            rate,
            mebibytes,
            tenths,
            seconds / 60,
            seconds % 60
        )
    }
}
