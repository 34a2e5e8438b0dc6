ghost use Rattle.std.specs.Prelude.{◌≡◌, ◌≤◌, ℕ, List, [], IfOk, Ok};
ghost use Rattle.irl_base.specs.Faults.{HasCause};
ghost use Rattle.irl_record.specs.Widening.{Answers, Widens, WidensSince};
ghost use Rattle.irl_record.specs.Wired.{Made, MakesAtMostOne, how_many};

use irl_key::Web;
use irl_offer::{Answer, Want};
use std::alloc::{AllocError, Global};

/// What gets pages: a fetcher with a clock.
pub trait Fetch {
    /// The connections that it made to get answers, where it tells them, of which none is ever taken back. By their
    /// count a moment is named.
    ghost asked: { Self → Made };

    /// The answers that it gives, by what it did since such a count. A fetcher that tells nothing of them has them all, and
    /// one whose answers stand from the beginning gives them since every count.
    ghost gives: { Self → ℕ → Answers };

    /// How often nothing came. The count never falls, and stands still at the last value of a `u64`.
    ghost faults: { Self → ℕ };

    /// No moment that is told later is before this one.
    ghost last: { Self → ℕ };

    /// What it is aimed at, as where it connects to, which no call changes. One that isn't aimed says nothing.
    ghost aim: { Self → List ℕ } = { λ _. [] };

    /// Gets a page, or a robots file, on one connection at most. `NoReply` comes only where a fault was counted in this call.
    fn fetch(&mut self, alloc: Global, web: &Web, want: Want) -> Result<Answer, AllocError>
        ensures told { IfOk result (λ answer. gives self.new (how_many (asked self.old)) web.now want answer) }
        ensures wider { WidensSince (gives self.old) (gives self.new) }
        ensures asked { MakesAtMostOne (asked self.old) (asked self.new) }
        ensures cause { HasCause (result ≡ Ok Answer.NoReply) (faults self.old) (faults self.new) }
        ensures later { last self.old ≤ last self.new }
        ensures aim { aim self.new ≡ aim self.old };

    /// The moment now, in milliseconds.
    fn now(&mut self) -> u64
        ensures later { last self.old ≤ result }
        ensures told { last self.new ≡ result }
        ensures wider { WidensSince (gives self.old) (gives self.new) }
        ensures asked { asked self.new ≡ asked self.old }
        ensures faults { faults self.old ≤ faults self.new }
        ensures aim { aim self.new ≡ aim self.old };

    /// Waits till the moment has come. A fetcher may wake early.
    fn wait_till(&mut self, moment: u64)
        ensures later { last self.old ≤ last self.new }
        ensures wider { WidensSince (gives self.old) (gives self.new) }
        ensures asked { asked self.new ≡ asked self.old }
        ensures faults { faults self.old ≤ faults self.new }
        ensures aim { aim self.new ≡ aim self.old };

    /// An answer since a count is one since each count before it.
    ghost earlier: { (x : Self) (since later : ℕ) → since ≤ later → Widens (gives x later) (gives x since) };

    /// An answer since now is nothing new: it is one since every count.
    ghost nothing_new: { (x : Self) (since : ℕ) → Widens (gives x (how_many (asked x))) (gives x since) };
}
