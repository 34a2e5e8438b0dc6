ghost use Rattle.std.specs.Prelude.{◌≡◌, ◌≤◌, length, drop};

use irl_offer::Entry;

/// The offers of a bucket that are not judged, without their texts.
#[derive(Drop)]
pub struct Pending {
    /// The entries of the records that have them, of which so many are judged.
    pub entries: Vec<Entry>,
    pub skip: usize,
    ghost within: { skip ≤ length entries.items },
}

impl Pending {
    /// The entries of the offers that are not judged, in order.
    pub fn entries(&self) -> &[Entry]
        ensures { result.now ≡ drop self.now.skip self.now.entries.items }
    {
        &self.entries[self.skip..]
    }
}
