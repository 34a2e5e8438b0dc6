/// What came of a URL.
#[derive(Clone, Copy, Debug, PartialEq, Eq)]
pub enum Outcome {
    /// A page: a status from 200 to 299.
    Page,
    /// A redirect with a location that can be fetched.
    Moved,
    /// Any other status.
    Status(u16),
    /// The robots file denies it, by the rule on this line.
    Denied(u32),
    /// The robots file could not be had.
    Shut,
    /// No reply came, or a part of one.
    Lost,
    /// What came is no reply.
    Bad,
    /// The reply is too large.
    Large,
    /// The reply is in a coding that isn't read.
    Coded,
}
