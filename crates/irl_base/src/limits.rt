/// The greatest length of a line, of an auxiliary text and of a URL, in bytes.
pub const MAX_TEXT: usize = 2_048;

/// The greatest length of a page's body, in bytes.
pub const MAX_PAGE: usize = 1_048_576;

/// The greatest length of what is kept of a robots file, in bytes.
pub const MAX_ROBOTS: usize = 512_000;
