ghost use Rattle.std.specs.Prelude.{◌≡◌, ◌≢◌, ◌⊎◌, ◌<◌, ◌≤◌, ◌+◌, ◌^◌, [], ◌∷◌, List, ℕ, Some, true, false};
ghost use Rattle.std.specs.Prelude.{length, length as len, drop, IfOk, OnOk, IsOk, IsErr, IsErrOf, vec_len};
ghost use Rattle.std.specs.Option.{ForSome};
ghost use Rattle.irl_base.specs.Faults.{HasCause};
ghost use Rattle.irl_disk.specs.Disk.{Files, ChangesFile};
ghost use Rattle.irl_disk.specs.Effects.{OnlyReads, ReadsAndChanges};
ghost use Rattle.irl_journal.specs.Format.{placed_from};
ghost use Rattle.irl_journal.specs.Visiting.{TakesAll, IsBrokenFor, IsRefusedAt, RefusesAt, HandsOver, StopsAt, TookUpTo, IsOpened, IsVisited, IsRevisited, IsDamaged, IsDamagedFrom};
ghost use Rattle.irl_journal.specs.Appending.{Ends};

use crate::fault::JournalFault;
use crate::format::{CLOSED, LONGEST, OPEN, begins_closed, split_record};
use crate::journal::Journal;
use crate::visit::Visit;
use irl_disk::{Failed, Store};
use std::alloc::{AllocError, Global};

impl Journal {
    /// Opens a journal: syncs its file, and hands each record to the visitor, in order. A file of at most one byte is
    /// an empty journal: its gate is written closed where it isn't. No other file's gate is written.
    pub fn visit<S: Store, V: Visit>(
        alloc: Global,
        store: &mut S,
        f: u16,
        visitor: &mut V,
    ) -> Result<Journal, JournalFault>
        requires { f < 10000 }
        ensures journal { IfOk result (λ journal. (journal.file ≡ f) × (journal.is_sound ≡ true)) }
        // The file stands for a list of records, just these the visitor took, and the journal is open on them.
        ensures visited { IfOk result (λ journal. ForSome (S.told store.old).files (λ files.
            IsVisited V.takes visitor.old visitor.new (S.told store.new).images (files f) journal)) }
        // Whatever the store tells, the visitor took records up to the journal's end.
        ensures took { IfOk result (λ journal. TookUpTo V.takes visitor.old visitor.new 0 journal.end) }
        ensures damaged { (at : ℕ) → IsErrOf result (JournalFault.Damaged at) → ForSome (S.told store.old).files
            (λ files. IsDamaged V.takes V.refuses visitor.old visitor.new (files f) at) }
        // A file of at most one byte is then the closed gate.
        ensures short { OnOk result (ForSome (S.told store.old).files (λ files. length (files f) ≤ 1 →
            (new : Files) × ((S.told store.new).files ≡ Some new) × (new f ≡ 0 ∷ []))) }
        // A stop at any moment leaves each file as it was, but that a file of at most one byte which is no closed gate
        // has at most one.
        ensures changes { ReadsAndChanges (λ g. g ≡ f) (ChangesFile f IsOpened) (IsErrOf result JournalFault.Failed)
            (S.told store.old) (S.told store.new) }
        // Where memory runs out or the file is damaged, it changes nothing.
        ensures quiet { (IsErrOf result JournalFault.Memory) ⊎ ((at : ℕ) × IsErrOf result (JournalFault.Damaged at)) →
            OnlyReads (λ g. g ≡ f) ⊥ (S.told store.old) (S.told store.new) }
    {
        store.sync(f)?; // From here on each stop leaves what is read.
        let length = store.length(f)?;
        if length > 1 {
            let end = read_records(alloc, store, f, length, visitor)?;
            return Ok(Journal::behind(f, end));
        }
        if is_closed_gate(store, f)? {
            return Ok(Journal::behind(f, 0));
        }
        Ok(Journal::make(store, f)?)
    }

    /// Hands the records from the one whose gate stands at this place on to a visitor, in order. It opens nothing and
    /// changes nothing. At the journal's end there are none, and it makes no call of the store.
    pub fn revisit<S: Store, V: Visit>(
        &self,
        alloc: Global,
        store: &mut S,
        at: u64,
        visitor: &mut V,
    ) -> Result<(), JournalFault>
        requires { at ≤ self.now.end }
        ensures revisited { OnOk result (ForSome (S.told store.old).files (λ files.
            IsRevisited V.takes visitor.old visitor.new self.now at (files self.now.file))) }
        ensures damaged { (place : ℕ) → IsErrOf result (JournalFault.Damaged place) → ForSome (S.told store.old).files
            (λ files. IsDamagedFrom V.takes V.refuses visitor.old visitor.new self.now at (files self.now.file) place) }
        ensures idle { at ≡ self.now.end → IsOk result × (store.new ≡ store.old) × (visitor.new ≡ visitor.old) }
        ensures reads { OnlyReads (λ f. f ≡ self.now.file) (IsErrOf result JournalFault.Failed)
            (S.told store.old) (S.told store.new) }
    {
        if at == self.end() {
            return Ok(());
        }
        let length = store.length(self.file())?;
        let end = read_from(alloc, store, self.file(), at, length, visitor)?;
        if end != self.end() {
            return Err(JournalFault::Damaged(end));
        }
        Ok(())
    }
}

// Whether a file of at most one byte is a closed gate.
fn is_closed_gate<S: Store>(store: &mut S, f: u16) -> Result<bool, Failed>
    requires file { f < 10000 }
    requires short { ForSome (S.told store.old).files (λ files. length (files f) ≤ 1) }
    ensures closed { IfOk result (λ is_closed. is_closed ≡ true →
        ForSome (S.told store.old).files (λ files. files f ≡ 0 ∷ [])) }
    ensures other { IfOk result (λ is_closed. is_closed ≡ false →
        ForSome (S.told store.old).files (λ files. files f ≢ 0 ∷ [])) }
    ensures reads { OnlyReads (λ g. g ≡ f) (IsErr result) (S.told store.old) (S.told store.new) }
{
    let mut gate = [OPEN];
    let count = store.read(f, 0, &mut gate)?;
    Ok(count == 1 && gate[0] == CLOSED)
}

// A buffer of this length.
fn zeros(alloc: Global, len: usize) -> Result<Vec<u8>, AllocError>
    ensures { IfOk result (λ buffer. vec_len buffer ≡ len) }
{
    vec![in alloc; 0; len]
}

// Reads a journal's file of this length, hands over its records, and gives the place of the closed gate.
fn read_records<S: Store, V: Visit>(
    alloc: Global,
    store: &mut S,
    f: u16,
    length: u64,
    visitor: &mut V,
) -> Result<u64, JournalFault>
    requires file { f < 10000 }
    requires long { ForSome (S.told store.old).files (λ files. (length ≡ len (files f)) × (1 < length)) }
    ensures within { IfOk result (λ end. end + 1 < 2 ^ 64) }
    ensures records { IfOk result (λ end. ForSome (S.told store.old).files (λ files. (payloads : List (List ℕ))
        × Ends end (files f) payloads × TakesAll V.takes visitor.old (placed_from 0 payloads) visitor.new)) }
    ensures took { IfOk result (λ end. TookUpTo V.takes visitor.old visitor.new 0 end) }
    ensures damaged { (at : ℕ) → IsErrOf result (JournalFault.Damaged at) →
        ForSome (S.told store.old).files (λ files.
        IsBrokenFor V.takes visitor.old visitor.new (files f) at
        ⊎ IsRefusedAt V.takes V.refuses visitor.old visitor.new (files f) at) }
    ensures reads { OnlyReads (λ g. g ≡ f) (IsErrOf result JournalFault.Failed) (S.told store.old) (S.told store.new) }
{
    read_from(alloc, store, f, 0, length, visitor)
}

// Reads a journal's file of this length from a gate on, hands over the records from there, and gives the place of the
// closed gate.
fn read_from<S: Store, V: Visit>(
    alloc: Global,
    store: &mut S,
    f: u16,
    from: u64,
    length: u64,
    visitor: &mut V,
) -> Result<u64, JournalFault>
    requires file { f < 10000 }
    requires long { ForSome (S.told store.old).files (λ files. length ≡ len (files f)) }
    ensures within { IfOk result (λ end. end + 1 < 2 ^ 64) }
    ensures records { IfOk result (λ end. ForSome (S.told store.old).files (λ files.
        StopsAt V.takes visitor.old visitor.new from true (drop from (files f)) end)) }
    ensures took { IfOk result (λ end. TookUpTo V.takes visitor.old visitor.new from end) }
    ensures damaged { (at : ℕ) → IsErrOf result (JournalFault.Damaged at) →
        ForSome (S.told store.old).files (λ files.
        StopsAt V.takes visitor.old visitor.new from false (drop from (files f)) at
        ⊎ RefusesAt V.takes V.refuses visitor.old visitor.new from (drop from (files f)) at) }
    ensures reads { OnlyReads (λ g. g ≡ f) (IsErrOf result JournalFault.Failed) (S.told store.old) (S.told store.new) }
{
    let left = length.saturating_sub(from);
    let mut piece = zeros(alloc, left.min(LONGEST as u64) as usize)?;
    let mut at = from;
    while at < length {
        let count = store.read(f, at, &mut piece)?;
        let (taken, is_closed) = hand_over(&piece[..count], at, visitor)?;
        if is_closed {
            return Ok(at + taken as u64);
        }
        if taken == 0 {
            return Err(JournalFault::Damaged(at));
        }
        at += taken as u64;
    }
    Err(JournalFault::Damaged(at))
}

// Hands over the whole records that these bytes begin with, whose first gate stands at this place of the file. Says how
// many bytes they take, and whether a closed gate stands behind them.
fn hand_over<V: Visit>(
    bytes: &[u8],
    at: u64,
    visitor: &mut V,
) -> Result<(usize, bool), JournalFault>
    requires { at + len bytes.now < 2 ^ 64 }
    ensures records { IfOk result (λ p. HandsOver V.takes visitor.old visitor.new at p.0 p.1 bytes.now) }
    ensures refused { (place : ℕ) → IsErrOf result (JournalFault.Damaged place) →
        RefusesAt V.takes V.refuses visitor.old visitor.new at bytes.now place }
    ensures no_fault { IsErrOf result JournalFault.Failed → ⊥ }
{
    let mut rest = bytes;
    while let Some((payload, behind)) = split_record(rest) {
        let place = at + (bytes.len() - rest.len()) as u64;
        if !visitor.take(place, payload)? {
            return Err(JournalFault::Damaged(place));
        }
        rest = behind;
    }
    Ok((bytes.len() - rest.len(), begins_closed(rest)))
}
