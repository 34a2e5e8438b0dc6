/// How much there is of a crawl, as its report has it.
#[derive(Clone, Copy, Debug, PartialEq, Eq)]
pub struct Counts {
    /// Offers, judged or not.
    pub offers: u64,
    /// Offers that were judged.
    pub judged: u64,
    /// URLs: offers that were judged unique.
    pub unique: u64,
    /// Links from one domain to another, each counted once.
    pub pairs: u64,
    /// URLs that no pass has read.
    pub fresh: u64,
    /// URLs in the queues.
    pub queued: u64,
    /// URLs behind all queues.
    pub last: u64,
    /// URLs to be fetched next.
    pub front: u64,
    /// URLs that are done, and of these, by what came of them:
    pub done: u64,
    /// pages,
    pub page: u64,
    /// redirects,
    pub moved: u64,
    /// other statuses,
    pub status: u64,
    /// those that a rule of the robots file denies,
    pub denied: u64,
    /// those of hosts whose robots file could not be had,
    pub shut: u64,
    /// those without a whole reply,
    pub lost: u64,
    /// those whose reply is none,
    pub bad: u64,
    /// those whose reply is too large,
    pub large: u64,
    /// and those whose reply is coded.
    pub coded: u64,
}
