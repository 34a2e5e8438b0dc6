ghost use Rattle.std.specs.Prelude.{◌≡◌, ◌+◌, ◌≤◌, ◌<◌, ◌++◌, [], List, ℕ, length as len, slice_get, IfOk};
ghost use Rattle.std.specs.Option.{ForSome};
ghost use Rattle.irl_journal.specs.Appending.{HasRoom};
ghost use Rattle.irl_journal.specs.Blob.{KeepsFront};
ghost use Rattle.irl_journal.specs.Format.{appended_text, body_text, records_text};
ghost use Rattle.irl_journal.specs.Growing.{Puts, ReachesPlace};
ghost use Rattle.irl_journal.specs.Synced.{WritesSynced};

use crate::file_writer::FileWriter;
use crate::format::{CLOSED, HEAD, MAX_PAYLOAD, OPEN};
use crate::frame::Frame;
use irl_disk::{Failed, Store};
use std::alloc::{AllocError, Global};

/// Several payloads, each of which can be spelled by itself.
pub trait Payloads {
    /// What they are, in order.
    ghost payloads: { Self → List (List ℕ) };

    /// How many there are.
    fn count(&self) -> usize
        ensures { result ≡ len (payloads self.now) };

    /// The length of one, in bytes.
    fn length(&self, i: usize) -> u32
        requires { i < len (payloads self.now) }
        ensures value { ForSome (slice_get (payloads self.now) i) (λ payload. result ≡ len payload) }
        ensures limit { result ≤ MAX_PAYLOAD };

    /// Puts one at the end of what a frame has. It takes no memory.
    fn put(&self, i: usize, frame: &mut Frame)
        requires index { i < len (payloads self.now) }
        requires room { ForSome (slice_get (payloads self.now) i) (λ payload.
            len frame.old.bytes + len payload ≤ frame.old.room) }
        ensures { ForSome (slice_get (payloads self.now) i) (λ payload.
            frame.new ≡ record { room = frame.old.room; bytes = frame.old.bytes ++ payload }) };
}

// What the records of an append are written with, behind the closed gate.
#[derive(Drop)]
pub struct Behind {
    frame: Frame,
    writer: FileWriter,
}

impl Behind {
    // Reserves it: a frame with room for each payload, and a piece for all records, of at most so many bytes.
    pub fn reserve<P: Payloads>(
        alloc: Global,
        f: u16,
        at: u64,
        payloads: &P,
        piece: usize,
    ) -> Result<Behind, AllocError>
        requires { f < 10000 }
        ensures writer { IfOk result (λ behind.
            behind.writer ≡ record { file = f; kept = at; place = at; waiting = [] }) }
        ensures room { IfOk result (λ behind. HasRoom behind.frame.room (P.payloads payloads.now)) }
    {
        let (room, total) = sizes(payloads);
        Ok(Behind {
            frame: Frame::with_room(alloc, room)?,
            writer: FileWriter::with_room(alloc, f, at, total.min(piece as u64) as usize)?,
        })
    }

    // Writes the records but for the first one's gate, and behind them a closed gate; and syncs. Says how long the file
    // is up to there.
    pub fn write<S: Store, P: Payloads>(
        mut self,
        store: &mut S,
        payloads: &P,
    ) -> Result<u64, Failed>
        requires some { 1 ≤ len (P.payloads payloads.now) }
        requires room { HasRoom self.frame.room (P.payloads payloads.now) }
        requires begun { (self.writer.waiting ≡ []) × (self.writer.place ≡ self.writer.kept) }
        requires long { ForSome (S.told store.old).files (ReachesPlace self.writer) }
        ensures synced { WritesSynced result self.writer.file self.writer.kept (appended_text (P.payloads payloads.now))
            (KeepsFront self.writer.kept) (S.told store.old) (S.told store.new) }
        ensures length { IfOk result (λ n. n ≡ self.writer.kept + len (records_text (P.payloads payloads.now))) }
    {
        self.put_body(store, payloads, 0)?;
        for i in 1..payloads.count() {
            self.writer.put(store, &[OPEN])?;
            self.put_body(store, payloads, i)?;
        }
        self.writer.put(store, &[CLOSED])?;
        self.writer.finish(store)
    }

    // Puts what stands behind the gate of one record.
    fn put_body<S: Store, P: Payloads>(
        &mut self,
        store: &mut S,
        payloads: &P,
        i: usize,
    ) -> Result<(), Failed>
        requires index { i < len (P.payloads payloads.now) }
        requires room { HasRoom self.old.frame.room (P.payloads payloads.now) }
        requires long { ForSome (S.told store.old).files (ReachesPlace self.old.writer) }
        ensures puts { ForSome (slice_get (P.payloads payloads.now) i) (λ payload. Puts result (body_text payload)
            self.old.writer self.new.writer (S.told store.old) (S.told store.new)) }
        ensures room { self.new.frame.room ≡ self.old.frame.room }
    {
        self.frame.clear();
        payloads.put(i, &mut self.frame);
        self.writer.put(store, self.frame.body())
    }
}

// The greatest length of a payload, and how many bytes all records take.
fn sizes<P: Payloads>(payloads: &P) -> (u32, u64)
    ensures { HasRoom result.0 (P.payloads payloads.now) }
{
    let mut greatest = 0;
    let mut total: u64 = 0;
    for i in 0..payloads.count() {
        let length = payloads.length(i);
        greatest = greatest.max(length);
        total = total.saturating_add(u64::from(length) + (HEAD + 1) as u64);
    }
    (greatest, total)
}
