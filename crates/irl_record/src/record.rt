use irl_offer::Reply;

/// What a tape has of a URL.
#[derive(Drop)]
pub enum Record {
    /// A whole reply.
    Page(Reply),
    /// No reply ever comes.
    Lost,
}
