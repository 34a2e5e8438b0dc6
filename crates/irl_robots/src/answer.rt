/// What the status of the answer to a robots request makes of the file.
#[derive(Clone, Copy, Debug, PartialEq, Eq)]
pub enum Class {
    /// The body has the rules.
    Rules,
    /// The location is followed. Where there is none that can be, or after five, the file is unavailable.
    Moved,
    /// The file is unavailable: all is allowed.
    Free,
    /// The file is unreachable: nothing is allowed.
    Shut,
}
