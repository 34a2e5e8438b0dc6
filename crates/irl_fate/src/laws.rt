ghost use Rattle.std.specs.Prelude.{◌≡◌, ◌≢◌, ◌↔◌, ◌<◌, ◌≤◌, ◌++◌, ◌+◌, ℕ, List, length, true, false};
ghost use Rattle.irl_offer.specs.declared.outcome.Outcome.{Outcome};
ghost use Rattle.irl_events.specs.Events.{Progress};
ghost use Rattle.irl_events.specs.Events.{Happened, has_number, progress};
ghost use Rattle.irl_events.specs.Legal.{are_distinct};
ghost use Rattle.irl_fate.specs.Counting.{CountFates, count_fate};
ghost use Rattle.irl_fate.specs.Kept.{is_front, is_done};
ghost use Rattle.irl_fate.specs.declared.counts.Counts.{Counts as CountsValue};
ghost use Rattle.irl_fate.specs.Fates.{fate_of};
ghost use Rattle.irl_fate.specs.Reads.{was_read, IsCrawl};
ghost use Rattle.irl_fate.specs.Standing.{one_if, stands, IsWaiting};
ghost use Rattle.irl_fate.specs.declared.fate.Fate.TheVariants.{Fresh as FreshFate, Queue as QueueFate, Done as DoneFate};

/// A law of each crawl, a list of events that break no rule: a number stands nowhere until a pass reads it, and from then on it
/// stands just once, in the front, a queue, the last list or what is done. So it is fresh just where no pass has read it, one
/// that was read never is fresh again, and none is lost on the way.
pub fn what_was_read_stands_once()
    ensures once { (queues buckets : ℕ) (events : List Happened) (n : ℕ) → IsCrawl queues buckets events →
        stands (progress queues buckets events) n ≡ one_if (was_read events n) }
    ensures fresh { (queues buckets : ℕ) (events : List Happened) (n : ℕ) → IsCrawl queues buckets events →
        (fate_of (progress queues buckets events) n ≡ FreshFate) ↔ (was_read events n ≡ false) }
    ensures again { (queues buckets : ℕ) (events more : List Happened) (n : ℕ) →
        IsCrawl queues buckets (events ++ more) → fate_of (progress queues buckets events) n ≢ FreshFate →
        fate_of (progress queues buckets (events ++ more)) n ≢ FreshFate }
    ensures below { (queues buckets : ℕ) (events : List Happened) (n : ℕ) → IsCrawl queues buckets events →
        was_read events n ≡ true → n < (progress queues buckets events).read }
{}

/// A law of each crawl: what is done stays done, with the same outcome.
pub fn what_is_done_stays_done()
    ensures { (queues buckets : ℕ) (events more : List Happened) (n : ℕ) (outcome : Outcome) →
        IsCrawl queues buckets (events ++ more) → fate_of (progress queues buckets events) n ≡ DoneFate outcome →
        fate_of (progress queues buckets (events ++ more)) n ≡ DoneFate outcome }
{}

/// A law of each crawl: at each time there are 1 to 64 queues in use, and fewer passes of the round are done; the queues that
/// the round has read, and those that are not in use, are empty, and a number that waits in a queue waits in another one. There
/// are as many fronts as buckets, and no number is read that is not sent.
pub fn queues_wait_for_their_pass()
    ensures waiting { (queues buckets : ℕ) (events : List Happened) → IsCrawl queues buckets events →
        IsWaiting (progress queues buckets events).waiting }
    ensures queue { (queues buckets : ℕ) (events : List Happened) (n i : ℕ) → IsCrawl queues buckets events →
        fate_of (progress queues buckets events) n ≡ QueueFate i →
        ((progress queues buckets events).waiting.passes < i) × (i ≤ (progress queues buckets events).waiting.queues) }
    ensures fronts { (queues buckets : ℕ) (events : List Happened) → IsCrawl queues buckets events →
        length (progress queues buckets events).fronts ≡ buckets }
    ensures sent { (queues buckets : ℕ) (events : List Happened) → IsCrawl queues buckets events →
        (progress queues buckets events).read ≤ (progress queues buckets events).sent }
{}

/// A law: the counts by fate add up to the URLs, and those by outcome to what is done. Where the numbers of the URLs differ and
/// have all that was read among them, as many are in the front, and as many done, as its list is long.
pub fn counts_add_up()
    ensures fates { (counts : CountsValue) (x : Progress) (numbers : List ℕ) → CountFates counts x numbers →
        counts.fresh + counts.queued + counts.last + counts.front + counts.done ≡ counts.unique }
    ensures outcomes { (counts : CountsValue) (x : Progress) (numbers : List ℕ) → CountFates counts x numbers →
        counts.page + counts.moved + counts.status + counts.denied + counts.shut + counts.lost + counts.bad + counts.large
        + counts.coded ≡ counts.done }
    ensures front { (queues buckets : ℕ) (events : List Happened) (numbers : List ℕ) → IsCrawl queues buckets events →
        are_distinct numbers ≡ true → ((n : ℕ) → was_read events n ≡ true → has_number numbers n ≡ true) →
        count_fate is_front (progress queues buckets events) numbers ≡ length (progress queues buckets events).front }
    ensures done { (queues buckets : ℕ) (events : List Happened) (numbers : List ℕ) → IsCrawl queues buckets events →
        are_distinct numbers ≡ true → ((n : ℕ) → was_read events n ≡ true → has_number numbers n ≡ true) →
        count_fate is_done (progress queues buckets events) numbers ≡ length (progress queues buckets events).done }
{}
