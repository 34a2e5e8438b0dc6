ghost use Rattle.std.specs.Prelude.{◌≡◌};
ghost use Rattle.irl_frontier.specs.Plans.{places_of};

use crate::tally::KINDS;
use irl_offer::Place;

/// An event that is planned and not done yet, with all the memory that it takes. Contracts say what it is to do by `IsPlanOf`
/// and `after_plan`.
#[derive(Drop)]
pub struct Plan {
    // What becomes of the URLs.
    pub(crate) event: irl_fate::Plan,
    // What becomes of the queues, where the event is a pass.
    pub(crate) pass: Option<irl_beast::Plan>,
    // How many URLs came to each kind of outcome then.
    pub(crate) tally: [u64; KINDS],
}

impl Plan {
    /// The places that the event gives, in the order of reading: none where it is no pass. It takes no memory.
    pub fn places(&self) -> &[Place]
        ensures { result.now ≡ places_of self.now.pass }
    {
        match &self.pass {
            Some(pass) => pass.places(),
            None => &[],
        }
    }
}
