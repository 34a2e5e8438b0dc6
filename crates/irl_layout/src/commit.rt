ghost use Rattle.std.specs.Prelude.{◌≡◌, ◌≤◌, ◌+◌, ◌*◌, ◌<◌, ◌++◌, length, IfOk, IfSome, IfNone};
ghost use Rattle.std.specs.List.{flat_map};
ghost use Rattle.byteorder.specs.Endian.{little_bytes};
ghost use Rattle.irl_layout.specs.Commits.{commit_bytes, first_commit, live_at, live_side, sides_byte as sides_byte_of};

use byteorder::{ByteOrder, LittleEndian};
use irl_journal::Frame;
use std::alloc::{AllocError, Global};
use std::marker::Model;

/// What a manifest's record says: how far a merge has come. Contracts see it as the `Commit` of `specs/Commits.antt`.
#[derive(Drop)]
pub struct Commit {
    /// The live side of the cache, 0 or 1, and how many keys it has.
    pub side: u8,
    /// The live side of the buckets' files, 0 or 1, which have the offers from the cut on. None in a record of the layout
    /// that had but one side: its files have every offer.
    pub live: Option<u8>,
    pub entries: u64,
    /// How many offers are judged, and how many of them Unique.
    pub judged: u64,
    pub unique: u64,
    /// How many bytes of the texts file are theirs.
    pub texts: u64,
    /// Below which number each bucket's offers are judged.
    pub cut: Vec<u64>,
}

impl Model for Commit {
    ghost use Rattle.irl_layout.specs.Commits.{Commit};

    ghost Value = { Commit };

    ghost view = { λ c. record {
      side = c.side;
      live = c.live;
      entries = c.entries;
      judged = c.judged;
      unique = c.unique;
      texts = c.texts;
      cut = c.cut.items;
    } };
}

/// How many bytes the record of a commit has.
pub fn commit_len(buckets: u32) -> u32
    requires { buckets ≤ 64 }
    ensures { result ≡ 33 + 8 * buckets }
{
    33 + 8 * buckets
}

/// Where a bucket's live files are, and what a commit says of them.
#[derive(Clone, Copy, Debug, PartialEq, Eq)]
pub struct Live {
    /// Their side, 0 or 1.
    pub side: u8,
    /// The number of the first offer that they have.
    pub start: u64,
    /// How many of their offers are judged.
    pub judged: u64,
}

impl Commit {
    /// What it says of a bucket's files.
    pub fn live_of(&self, b: u32) -> Live
        requires { b < length self.now.cut }
        ensures { result ≡ live_at (length self.now.cut) self.now b }
    {
        let side = self.live_side();
        let cut = self.cut[b as usize];
        match self.live {
            None => Live {
                side,
                start: 0,
                judged: cut,
            },
            Some(_) => Live {
                side,
                start: cut,
                judged: 0,
            },
        }
    }

    /// The live side of the buckets' files.
    pub fn live_side(&self) -> u8
        ensures { result ≡ live_side self.now }
    {
        self.live.unwrap_or(0)
    }

    /// What is said before the first merge.
    pub fn first(alloc: Global, buckets: u32) -> Result<Commit, AllocError>
        ensures { IfOk result (λ commit. commit ≡ first_commit buckets) }
    {
        Ok(Commit {
            side: 0,
            live: None,
            entries: 0,
            judged: 0,
            unique: 0,
            texts: 0,
            cut: vec![in alloc; 0; buckets as usize]?,
        })
    }

    /// Puts the record's payload behind what a frame has.
    pub fn put(&self, frame: &mut Frame)
        requires room { length frame.old.bytes + length (commit_bytes self.now) ≤ frame.old.room }
        requires side { self.now.side ≤ 1 }
        requires live { IfSome self.now.live (λ side. side ≤ 1) }
        ensures { frame.new ≡ record { room = frame.old.room; bytes = frame.old.bytes ++ commit_bytes self.now } }
    {
        frame.put(&[sides_byte(self.side, self.live)]);
        put_numbers(frame, &[self.entries, self.judged, self.unique, self.texts]);
        put_numbers(frame, &self.cut);
    }
}

// The byte that names both sides.
fn sides_byte(side: u8, live: Option<u8>) -> u8
    requires side { side ≤ 1 }
    requires live { IfSome live (λ n. n ≤ 1) }
    ensures { result ≡ sides_byte_of side live }
{
    match live {
        None => side,
        Some(live) => side + 2 + 2 * live,
    }
}

// Puts numbers behind what a frame has.
fn put_numbers(frame: &mut Frame, numbers: &[u64])
    requires { length frame.old.bytes + 8 * length numbers.now ≤ frame.old.room }
    ensures { frame.new ≡ record {
      room = frame.old.room;
      bytes = frame.old.bytes ++ flat_map (little_bytes 8) numbers.now;
    } }
{
    for number in numbers {
        put_number(frame, *number);
    }
}

// Puts a number behind what a frame has.
fn put_number(frame: &mut Frame, number: u64)
    requires { length frame.old.bytes + 8 ≤ frame.old.room }
    ensures { frame.new ≡ record { room = frame.old.room; bytes = frame.old.bytes ++ little_bytes 8 number } }
{
    let mut bytes = [0; 8];
    LittleEndian::write_u64(&mut bytes, number);
    frame.put(&bytes);
}
