ghost use Rattle.std.specs.Prelude.{◌≡◌, ◌↔◌, ◌<◌, ◌+◌, ◌-◌, true, min, drop, take, length};
ghost use Rattle.std.proofs.Props.{props};
ghost use Rattle.std.specs.Prelude.{slice_get, slice_index, Some, IfOk, IsErrOf};
ghost use Rattle.irl_offer.specs.Settings.{AreValid};
ghost use Rattle.irl_base.specs.declared.fault.Fault.TheVariants.{Failed as FailedFault, Memory as MemoryFault, Full as FullFault, Damaged as DamagedFault};
ghost use Rattle.irl_model.specs.Book.{Book, gone, judged as judged_of, judged_cut, lengths_of};
ghost use Rattle.irl_disk.specs.Disk.{Files};
ghost use Rattle.irl_bay.specs.Drum.{IsDrum, HasNumbers, durable_at, pending_at, SomePending};
ghost use Rattle.irl_bay.specs.Flushing.{MayFlush, Flushes, FlushRefused};
ghost use Rattle.irl_bay.specs.Holding.{IsLong};
ghost use Rattle.irl_bay.specs.Merges.{Merges, MergeRefused, ReadsJudged};
ghost use Rattle.irl_ledger.specs.Crawling.{AreTaken};
ghost use Rattle.irl_yard.specs.Flushing.{FlushesState, FlushLeaves};
ghost use Rattle.irl_yard.specs.Holding.{IsOpenRest, IsSound, StaysSound};
ghost use Rattle.irl_yard.specs.Merges.{MergesState, MergeLeaves, ReadsState};

use crate::parts::Parts;
use irl_array::Array;
use irl_bay::JudgedPart;
use irl_disk::Store;
use irl_offer::{Fault, Judged, Settings};
use std::alloc::Global;

/// A store that is open.
#[derive(Drop)]
pub struct Yard<S: Store> {
    pub(crate) store: S,
    pub(crate) parts: Parts,
    ghost long: { parts.urls.is_sound ≡ true → (files : Files) → (S.told store).files ≡ Some files
        → IsLong parts.urls files },
    ghost rest_is: { IsOpenRest parts.urls parts.rest (S.told store).files } by { Prim.hlevel props },
}

impl<S: Store> Yard<S> {
    /// Whether no call failed.
    pub fn is_sound(&self) -> bool
        ensures value { (result ≡ true) ↔ IsSound self.now.parts }
        // What holds of every open store, for who sees none of its fields.
        ensures drum { IsDrum self.now.parts.urls }
    {
        self.parts.urls.is_sound() && !self.parts.has_failed && self.parts.rest.is_sound()
    }

    /// The settings that it was made with.
    pub fn settings(&self) -> Settings
        ensures value { result ≡ self.now.parts.urls.settings }
        ensures valid { AreValid result }
    {
        let _is_sound = self.parts.urls.is_sound();
        self.parts.urls.settings()
    }

    /// How many offers a bucket of the URLs has.
    pub fn durable(&self, b: u32) -> u64
        requires { b < self.now.parts.urls.settings.buckets }
        ensures value { result ≡ durable_at self.now.parts.urls b }
        ensures book { (book : Book) → HasNumbers self.now.parts.urls book → result ≡ slice_index (lengths_of book) b }
    {
        self.parts.urls.durable(b)
    }

    /// How many offers of a bucket of the URLs wait to be judged.
    pub fn pending(&self, b: u32) -> u64
        requires { b < self.now.parts.urls.settings.buckets }
        ensures value { result ≡ pending_at self.now.parts.urls b }
        ensures book { (book : Book) → HasNumbers self.now.parts.urls book →
            result + slice_index (judged_cut book) b ≡ slice_index (lengths_of book) b }
    {
        self.parts.urls.pending(b)
    }

    /// How many offers of URLs are judged.
    pub fn judged_len(&self) -> u64
        ensures value { result ≡ self.now.parts.urls.last.judged }
        ensures book { (book : Book) → HasNumbers self.now.parts.urls book → result ≡ length (judged_of book) }
    {
        self.parts.urls.judged_len()
    }

    /// How many cuts the URLs have.
    pub fn cuts(&self) -> u64
        ensures value { result ≡ self.now.parts.urls.cuts }
        ensures book { (book : Book) → HasNumbers self.now.parts.urls book → result ≡ book.dropped + length book.cuts }
    {
        self.parts.urls.cuts()
    }

    /// Puts an array's offers behind those of a bucket of the URLs.
    pub fn flush(&mut self, b: u32, array: &mut Array) -> Result<(), Fault>
        requires sound { IsSound self.old.parts }
        requires offers { MayFlush b array.old.items self.old.parts.urls }
        requires taken { AreTaken self.old.parts.urls.settings.kind array.old.items }
        ensures flushes { Flushes result b array.old array.new self.old.parts.urls self.new.parts.urls
            (S.told self.old.store) (S.told self.new.store) }
        ensures refused { FlushRefused result b array.old array.new self.old.parts.urls self.new.parts.urls
            self.old.store self.new.store }
        ensures leaves { FlushLeaves S.told result b array.old.items self.old.parts.urls self.old.store self.new.store }
        ensures rest { self.new.parts.rest ≡ self.old.parts.rest }
        ensures states { FlushesState result b array.old.items self.old.parts self.new.parts
            (S.told self.old.store) (S.told self.new.store) }
        ensures goes_on { StaysSound (IsErrOf result Fault.Failed) self.new.parts }
    {
        let _is_sound = self.parts.urls.is_sound();
        self.parts.urls.flush(&mut self.store, b, array)
    }

    /// Judges every pending offer of the URLs, and adds one cut. `Ok` gives the number of cuts.
    pub fn merge(&mut self) -> Result<u64, Fault>
        requires sound { IsSound self.old.parts }
        requires pending { SomePending self.old.parts.urls }
        ensures merges { Merges result self.old.parts.urls self.new.parts.urls
            (S.told self.old.store) (S.told self.new.store) }
        ensures refused { MergeRefused result self.old.parts.urls self.new.parts.urls
            (S.told self.old.store) (S.told self.new.store) }
        ensures leaves { MergeLeaves S.told result self.old.parts.urls self.old.store self.new.store }
        ensures rest { self.new.parts.rest ≡ self.old.parts.rest }
        ensures states { MergesState result self.old.parts self.new.parts
            (S.told self.old.store) (S.told self.new.store) }
        ensures goes_on { StaysSound (IsErrOf result Fault.Failed) self.new.parts }
    {
        let _is_sound = self.parts.urls.is_sound();
        self.parts.urls.merge(&mut self.store)
    }

    /// A judged offer of the URLs, by its place in the judged order. It changes nothing; `Failed` ends the soundness.
    pub fn judged(&mut self, i: u64) -> Result<Judged, Fault>
        requires sound { IsSound self.old.parts }
        requires place { i < self.old.parts.urls.last.judged }
        // It is that of the state, which stays.
        ensures reads { ReadsJudged result (λ found book. slice_get (judged_of book) (i - gone book) ≡ Some found)
            self.old.parts.urls (S.told self.old.store) (S.told self.new.store) }
        ensures states { ReadsState result (λ found book. slice_get (judged_of book) (i - gone book) ≡ Some found)
            self.old.parts self.new.parts (S.told self.old.store) (S.told self.new.store) }
        ensures rest { self.new.parts.rest ≡ self.old.parts.rest }
        ensures goes_on { StaysSound (IsErrOf result Fault.Failed) self.new.parts }
    {
        let _is_sound = self.parts.urls.is_sound();
        let found = self.parts.urls.judged(&mut self.store, i);
        self.parts.has_failed = is_failure(&found);
        found
    }

    /// So many judged offers of the URLs, or as many as there are, from the one with this place in the judged order on.
    /// It changes nothing; `Failed` ends the soundness.
    pub fn judged_from(&mut self, i: u64, most: u32) -> Result<JudgedPart, Fault>
        requires sound { IsSound self.old.parts }
        requires place { i < self.old.parts.urls.last.judged }
        ensures count { IfOk result (λ found.
            length found ≡ min most (self.old.parts.urls.last.judged - i)) }
        // They are those of the state, which stays.
        ensures reads { ReadsJudged result (λ found book. found ≡ take most (drop (i - gone book) (judged_of book)))
            self.old.parts.urls (S.told self.old.store) (S.told self.new.store) }
        ensures states { ReadsState result (λ found book. found ≡ take most (drop (i - gone book) (judged_of book)))
            self.old.parts self.new.parts (S.told self.old.store) (S.told self.new.store) }
        ensures rest { self.new.parts.rest ≡ self.old.parts.rest }
        ensures goes_on { StaysSound (IsErrOf result Fault.Failed) self.new.parts }
    {
        let _is_sound = self.parts.urls.is_sound();
        let found = self.parts.urls.judged_from(&mut self.store, i, most);
        self.parts.has_failed = is_failure(&found);
        found
    }

    /// Hands the store back. It takes no memory.
    pub fn into_store(self) -> S
        ensures { result ≡ self.store }
    {
        let Yard { store, parts: _ } = self;
        store
    }
}

// Whether an answer is that the store failed.
pub(crate) fn is_failure<T>(found: &Result<T, Fault>) -> bool
    ensures { (result ≡ true) ↔ IsErrOf found.now Fault.Failed }
{
    matches!(found, Err(Fault::Failed))
}
