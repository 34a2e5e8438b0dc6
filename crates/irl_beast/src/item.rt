use irl_offer::Text;

/// A URL that waits, by its number, with the text of its domain.
#[derive(Drop)]
pub struct Item {
    pub number: u64,
    pub pld: Text,
}
