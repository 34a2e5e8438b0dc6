use irl_key::Work;
use irl_offer::Text;

/// What is to be done next.
#[derive(Drop)]
pub enum Job {
    /// Fetch this page.
    Page(Work),
    /// The rule on this line of its host's robots file denies this page.
    Denied(Work, u32),
    /// Nothing of this page's host may be fetched, since its robots file could not be had.
    ShutOut(Work),
    /// Fetch the robots file of this host, which may have `:port`, and hand it in by `Front::robots_done`.
    Robots(Text),
    /// Nothing may start before this moment.
    WaitTill(u64),
    /// Each item left waits for a robots file to be handed in, or none is left.
    Idle,
}
