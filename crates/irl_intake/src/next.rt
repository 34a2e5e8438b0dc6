/// What to do next.
#[derive(Clone, Copy, Debug, PartialEq, Eq)]
pub enum Next {
    /// A merge ran: what was judged may be printed, and then the same is asked again.
    Merged,
    /// There is room for the offer; or, at the end of an input, nothing waits and nothing is unjudged.
    Ready,
}
