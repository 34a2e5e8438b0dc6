ghost use Rattle.std.specs.Prelude.{◌≡◌, ◌+◌, ◌*◌, ◌≤◌, ◌<◌, ◌^◌, ◌++◌, [], ◌∷◌, List, ℕ, map, take, Option};
ghost use Rattle.std.specs.Prelude.{length as len, IfOk, OnOk, OnErr, IsErr};
ghost use Rattle.std.specs.Option.{ForSome};
ghost use Rattle.irl_offer.specs.declared.receipt.Pair.{Pair};
ghost use Rattle.irl_base.specs.Faults.{HasCause};
ghost use Rattle.irl_model.specs.Pairs.{pair_of};
ghost use Rattle.irl_disk.specs.Disk.{Files, ChangesFile};
ghost use Rattle.irl_disk.specs.Effects.{OnlyChanges};
ghost use Rattle.irl_journal.specs.Blob.{KeepsFront, IsCommitted};
ghost use Rattle.irl_journal.specs.Growing.{ReachesPlace, end_of};
ghost use Rattle.irl_cache.specs.SortedRun.{pairs_bytes, IsAbove, RisesFrom};
ghost use Rattle.irl_cache.specs.Writing.{HasWritten, PutsPairs};

use crate::decode::{ENTRY, pair_bytes};
use irl_disk::{Failed, Store};
use irl_journal::{FileWriter, PIECE};
use irl_offer::Pair;
use std::alloc::{AllocError, Global};
use std::marker::Model;

/// A writer of a sorted run, from the front of its file on, over whatever lies there. Contracts see it as a `RunWriter`.
#[derive(Drop)]
pub struct CacheWriter {
    out: FileWriter,
    last: Option<u64>,
}

impl Model for CacheWriter {
    ghost use Rattle.std.specs.Prelude.{◌≡◌, ◌%◌};
    ghost use Rattle.irl_journal.specs.Growing.{end_of};
    ghost use Rattle.irl_cache.specs.Writing.{RunWriter};

    ghost Value = { RunWriter };

    ghost view = { λ w. record { out = w.out; last = w.last } };

    ghost invariant = { λ w. (end_of w.out % 16 ≡ 0) × (w.out.kept ≡ 0) };
}

impl CacheWriter {
    /// A writer of a run in this file. It gathers at least `block` entries before it writes them. It touches no file. All
    /// the memory that the other calls need is taken here.
    pub fn new(alloc: Global, f: u16, block: u32) -> Result<CacheWriter, AllocError>
        requires file { f < 10000 }
        requires block { (1 ≤ block) × (block ≤ 65536) }
        ensures value { IfOk result (λ writer.
            writer ≡ record { out = record { file = f; kept = 0; place = 0; waiting = [] }; last = Option.None }) }
        ensures written { IfOk result (λ writer. (told : Option Files) → HasWritten told [] writer) }
    {
        let room = PIECE.max(ENTRY * block as usize);
        let out = FileWriter::with_room(alloc, f, 0, room)?;
        Ok(CacheWriter { out, last: None })
    }

    /// Puts a pair, whose key is above all before. The file is as long as what was written of it, as it is while nobody else
    /// changes it. A refusal leaves what was put, and the pair may be put again. It takes no memory.
    pub fn put<S: Store>(&mut self, store: &mut S, pair: Pair) -> Result<(), Failed>
        requires long { ForSome (S.told store.old).files (ReachesPlace self.old.out) }
        requires above { IsAbove self.old.last pair.key }
        ensures puts { PutsPairs result (pair ∷ []) self.old self.new (S.told store.old) (S.told store.new) }
        ensures written_before { OnErr result ((pairs : List Pair) → HasWritten (S.told store.old).files pairs self.old
            → HasWritten (S.told store.new).files pairs self.new) }
        ensures last { OnOk result (self.new.last ≡ Option.Some pair.key) }
    {
        self.out.put(store, &pair_bytes(pair))?;
        self.last = Some(pair.key);
        Ok(())
    }

    /// Puts pairs whose keys rise, from above all before. A refusal leaves the first of them put, or none, and the others may
    /// be put then. It takes no memory.
    pub fn put_all<S: Store>(&mut self, store: &mut S, pairs: &[Pair]) -> Result<(), Failed>
        requires long { ForSome (S.told store.old).files (ReachesPlace self.old.out) }
        requires rising { RisesFrom self.old.last pairs.now }
        ensures { PutsPairs result pairs.now self.old self.new (S.told store.old) (S.told store.new) }
    {
        for pair in pairs {
            self.put(store, *pair)?;
        }
        Ok(())
    }

    /// Writes what waits and syncs the file: each stop from then on leaves the pairs that were put, of which it gives the
    /// number.
    pub fn finish<S: Store>(self, store: &mut S) -> Result<u64, Failed>
        requires { ForSome (S.told store.old).files (ReachesPlace self.out) }
        ensures committed { IfOk result (λ n. (pairs : List Pair) → HasWritten (S.told store.old).files pairs self →
            IsCommitted (S.told store.new).images (record { file = self.out.file; length = 16 * n })
            (pairs_bytes (map pair_of pairs))) }
        ensures count { IfOk result (λ n. (pairs : List Pair) → HasWritten (S.told store.old).files pairs self →
            n ≡ len pairs) }
        ensures end { IfOk result (λ n. 16 * n ≡ end_of self.out) }
        ensures bound { IfOk result (λ n. 16 * n < 2 ^ 64) }
        ensures long { IfOk result (λ n. ForSome (S.told store.new).files (λ files.
            16 * n ≤ len (files self.out.file))) }
        // No other file changes.
        ensures changes { OnlyChanges (ChangesFile self.out.file (KeepsFront 0)) (IsErr result)
            (S.told store.old) (S.told store.new) }
    {
        Ok(self.out.finish(store)? / ENTRY as u64)
    }
}
