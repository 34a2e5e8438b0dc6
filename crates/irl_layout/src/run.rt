ghost use Rattle.std.specs.Prelude.{◌≡◌, ◌≤◌, ◌+◌, ◌*◌, ◌++◌, length, IfOk, OnOk};
ghost use Rattle.std.specs.List.{AllByRecursion};
ghost use Rattle.irl_layout.specs.Runs.{entry_of_offer, run_bytes, texts_of, IsOffer};

use irl_journal::Frame;
use irl_offer::{ENTRY_LEN, Entry, Offer, encode};
use std::alloc::{AllocError, Global};

/// What a flush writes of offers: a record of their entries, and their texts.
#[derive(Drop)]
pub struct Run {
    pub frame: Frame,
    pub texts: Vec<u8>,
}

impl Run {
    /// What is written of these offers. It takes all the memory that a flush needs.
    pub fn of(alloc: Global, offers: &[Offer]) -> Result<Run, AllocError>
        requires { length offers.now ≤ 8192 }
        ensures frame { IfOk result (λ run. run.frame.bytes ≡ run_bytes offers.now) }
        ensures texts { IfOk result (λ run. run.texts.items ≡ texts_of offers.now) }
        ensures offers { OnOk result (AllByRecursion IsOffer offers.now) }
    {
        let mut frame = Frame::with_room(alloc, (offers.len() * ENTRY_LEN) as u32)?;
        put_entries(&mut frame, offers);
        Ok(Run {
            frame,
            texts: texts(alloc, offers)?,
        })
    }
}

// An offer without its text.
fn entry_of(offer: &Offer) -> Entry
    ensures value { result ≡ entry_of_offer offer.now }
    ensures offer { IsOffer offer.now }
{
    let (key, value, from) = (offer.key, offer.value, offer.from);
    Entry {
        op: offer.op,
        aux_len: offer.aux.bytes().len() as u16,
        key,
        value,
        from,
    }
}

// Puts the entries of offers behind what a frame has.
fn put_entries(frame: &mut Frame, offers: &[Offer])
    requires { length frame.old.bytes + 27 * length offers.now ≤ frame.old.room }
    ensures bytes { frame.new.bytes ≡ frame.old.bytes ++ run_bytes offers.now }
    ensures room { frame.new.room ≡ frame.old.room }
    ensures offers { AllByRecursion IsOffer offers.now }
{
    for offer in offers {
        frame.put(&encode(&entry_of(offer)));
    }
}

// The texts of offers, one behind the other.
fn texts(alloc: Global, offers: &[Offer]) -> Result<Vec<u8>, AllocError>
    ensures { IfOk result (λ texts. texts.items ≡ texts_of offers.now) }
{
    let mut room: usize = 0;
    for offer in offers {
        room = room.saturating_add(offer.aux.bytes().len());
    }
    let mut texts = Vec::with_capacity(alloc, room)?;
    for offer in offers {
        texts.extend_from_slice(offer.aux.bytes())?;
    }
    Ok(texts)
}
