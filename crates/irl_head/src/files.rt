/// The head: a journal whose one record has the settings.
pub const HEAD: u16 = 0;

/// The journal of a crawl.
pub const CRAWL: u16 = 1;

/// The first file of the bay of URLs.
pub const URLS_BASE: u16 = 100;

/// The first file of the bay of pairs.
pub const PAIRS_BASE: u16 = 300;

/// How many files a store may have.
pub const FILES: u16 = 10_000;
