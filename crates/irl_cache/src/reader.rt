ghost use Rattle.std.specs.Prelude.{◌≡◌, ◌+◌, ◌-◌, ◌≤◌, ◌<◌, ◌^◌, ◌++◌, ◌↔◌, [], List, ℕ, min, take, drop, Option};
ghost use Rattle.std.specs.Prelude.{length as len, IfOk, OnOk, OnErr, IsErr};
ghost use Rattle.std.specs.Option.{ForSome};
ghost use Rattle.irl_offer.specs.declared.receipt.Pair.{Pair};
ghost use Rattle.irl_disk.specs.Disk.{Files, Reads};
ghost use Rattle.irl_disk.specs.Effects.{OnlyReads};
ghost use Rattle.irl_disk.specs.Taken.{Takes};
ghost use Rattle.irl_cache.specs.Reading.{Fills, HasRead, ReachesRead, ReadsOn, read_of};

use crate::decode::{ENTRY, read_pairs};
use irl_disk::{Failed, Store};
use irl_journal::PIECE;
use irl_offer::{Fault, Pair};
use std::alloc::{AllocError, Global};
use std::marker::Model;

/// A reader of a sorted run, block by block, that reads each byte once. Contracts see it as a `Reader`.
#[derive(Drop)]
pub struct CacheReader {
    file: u16,
    entries: u64,
    most: u32,
    given: u64,
    // The bytes of a piece, as long as a whole one, and its pairs, of which `start..end` are the block.
    bytes: Vec<u8>,
    pairs: Vec<Pair>,
    start: usize,
    end: usize,
    last: Option<u64>,
}

impl Model for CacheReader {
    ghost use Rattle.std.specs.Prelude.{◌≡◌, ◌⊎◌, ℕ, ◌+◌, ◌-◌, ◌*◌, ◌^◌, ◌<◌, ◌≤◌, take, drop, vec_len, vec_capacity};
    ghost use Rattle.irl_cache.specs.Reading.{Reader};

    ghost Value = { Reader };

    ghost view = { λ r. record {
      file = r.file;
      entries = r.entries;
      most = r.most;
      given = r.given;
      block = take (r.end - r.start) (drop r.start r.pairs.items);
      ahead = drop r.end r.pairs.items;
      last = r.last;
    } };

    ghost invariant = { λ r. (r.file < 10000) × (1 ≤ r.most) × (r.start ≤ r.end) × (r.end ≤ vec_len r.pairs)
        × (r.given + (vec_len r.pairs - r.end) ≤ r.entries) × (16 * (r.given + (vec_len r.pairs - r.end)) < 2 ^ 64)
        × ((pieces : ℕ) × (vec_len r.bytes ≡ 16 * (r.most * (pieces + 1))))
        × (vec_len r.bytes ≤ 16 * vec_capacity r.pairs)
        × ((r.given + (vec_len r.pairs - r.end) ≡ r.entries) ⊎ ((n : ℕ) × (vec_len r.pairs - r.end ≡ r.most * n))) };
}

impl CacheReader {
    /// A reader of the run of so many entries in this file, of which a block has at most `block`. It touches no file. All the
    /// memory that the other calls need is taken here.
    pub fn new(alloc: Global, f: u16, entries: u64, block: u32) -> Result<CacheReader, AllocError>
        requires file { f < 10000 }
        requires block { (1 ≤ block) × (block ≤ 65536) }
        ensures value { IfOk result (λ reader. reader ≡ record {
          file = f;
          entries = entries;
          most = block;
          given = 0;
          block = [];
          ahead = [];
          last = Option.None;
        }) }
        ensures read { IfOk result (λ reader. (told : Option Files) → HasRead told [] reader) }
    {
        let piece = block as usize * (PIECE / ENTRY / block as usize + 1);
        let bytes = vec![in alloc; 0; ENTRY * piece]?;
        let pairs = Vec::with_capacity(alloc, piece)?;
        Ok(CacheReader {
            file: f,
            entries,
            most: block,
            given: 0,
            bytes,
            pairs,
            start: 0,
            end: 0,
            last: None,
        })
    }

    /// Goes on to the next block, which has the lesser of the reader's `block` and the entries left, and gives how many it has:
    /// 0 exactly at the run's end. The file is as long as what was read of it, as it is while nobody else changes it. A refusal
    /// is `Failed`, or `Damaged` with the file's length where it ends before its entries, and else with the place of a key that
    /// isn't above the one before it, also in the block before. A refusal gives no block and leaves what was given, so that the
    /// call may be made again. It takes no memory.
    pub fn next_block<S: Store>(&mut self, store: &mut S) -> Result<usize, Fault>
        requires { ForSome (S.told store.old).files (ReachesRead self.old) }
        ensures count { IfOk result (λ n. n ≡ min self.old.most (self.old.entries - self.old.given)) }
        ensures block { IfOk result (λ n. n ≡ len self.new.block) }
        ensures end { IfOk result (λ n. (n ≡ 0) ↔ (self.old.given ≡ self.old.entries)) }
        ensures given { IfOk result (λ n. self.new.given ≡ self.old.given + n) }
        // The blocks so far and this one, joined, are the run's first entries, and their keys rise.
        ensures read { OnOk result ((pairs : List Pair) → HasRead (S.told store.old).files pairs self.old →
            HasRead (S.told store.new).files (pairs ++ self.new.block) self.new) }
        ensures read_before { OnErr result ((pairs : List Pair) → HasRead (S.told store.old).files pairs self.old →
            HasRead (S.told store.new).files pairs self.new) }
        ensures run { (self.new.file ≡ self.old.file) × (self.new.entries ≡ self.old.entries)
            × (self.new.most ≡ self.old.most) }
        // Each entry is read once: in all, as many as were read by the last block, which are all of them at the end.
        ensures reads_on { ReadsOn result self.old self.new (S.told store.old) (S.told store.new) }
        ensures ahead { OnOk result ((read_of self.old ≤ read_of self.new) × (read_of self.new ≤ self.new.entries)) }
    {
        self.fill(store)?;
        let count = (self.pairs.len() - self.end).min(self.most as usize);
        self.start = self.end;
        self.end += count;
        self.given += count as u64;
        Ok(count)
    }

    /// The block that was given last, keys rising.
    pub fn block(&self) -> &[Pair]
        ensures { result.now ≡ self.now.block }
    {
        &self.pairs[self.start..self.end]
    }

    // Reads the next piece where all of the last one was given, and there is more.
    fn fill<S: Store>(&mut self, store: &mut S) -> Result<(), Fault>
        requires { ForSome (S.told store.old).files (ReachesRead self.old) }
        ensures { Fills result self.old self.new (S.told store.old) (S.told store.new) }
    {
        if self.end < self.pairs.len() || self.given == self.entries {
            return Ok(());
        }
        self.read_piece(store)
    }

    // Reads the next piece in place of the last one, all of which was given.
    fn read_piece<S: Store>(&mut self, store: &mut S) -> Result<(), Fault>
        requires none { self.old.ahead ≡ [] }
        requires left { self.old.given < self.old.entries }
        requires long { ForSome (S.told store.old).files (ReachesRead self.old) }
        ensures { Fills result self.old self.new (S.told store.old) (S.told store.new) }
    {
        self.pairs.clear();
        self.start = 0;
        self.end = 0;
        let piece = (self.bytes.len() / ENTRY) as u64;
        let wanted = ENTRY * piece.min(self.entries - self.given) as usize;
        let at = ENTRY as u64 * self.given;
        let count = read_front(store, self.file, at, &mut self.bytes, wanted)?;
        if count < wanted {
            return Err(Fault::Damaged(self.file, at + count as u64));
        }
        match read_pairs(&self.bytes[..wanted], self.last, &mut self.pairs) {
            Ok(last) => {
                self.last = last;
                Ok(())
            }
            Err(place) => {
                self.pairs.clear();
                Err(Fault::Damaged(self.file, at + place as u64))
            }
        }
    }
}

// Reads so many bytes of a file from a place on into the front of others, or those that the file has.
fn read_front<S: Store>(
    store: &mut S,
    f: u16,
    at: u64,
    bytes: &mut [u8],
    wanted: usize,
) -> Result<usize, Failed>
    requires file { f < 10000 }
    requires room { wanted ≤ len bytes.old }
    requires place { ForSome (S.told store.old).files (λ files. at ≤ len (files f)) }
    ensures within { IfOk result (λ n. (n ≤ wanted) × (at + n < 2 ^ 64)) }
    ensures bytes { IfOk result (λ n. ForSome (S.told store.old).files (λ files.
        Reads at wanted n bytes.new (files f))) }
    ensures taken { IfOk result (λ n. Takes f n (S.told store.old).taken (S.told store.new).taken) }
    ensures reads { OnlyReads (λ g. g ≡ f) (IsErr result) (S.told store.old) (S.told store.new) }
{
    store.read(f, at, &mut bytes[..wanted])
}
