ghost use Rattle.std.specs.Prelude.{◌≡◌, ◌+◌, ◌-◌, ◌^◌, ◌<◌, ◌≤◌, ℕ, [], Some};
ghost use Rattle.std.specs.Prelude.{IfOk, length, OnErr, OnOk, slice_index, slice_set, take};
ghost use Rattle.std.specs.List.{sum};
ghost use Rattle.irl_base.specs.Faults.{Rose, counted};
ghost use Rattle.irl_disk.specs.Disk.{ChangesFile, Holds};
ghost use Rattle.irl_disk.specs.Sure.{Resized, SureCall, files_cut, sure_files, told_surely, sure_taken};
ghost use Rattle.irl_disk.specs.SureLaws.{sure_consistent};

use crate::{Failed, Store};
use std::alloc::{AllocError, Global};
use std::marker::Model;

const FILES: usize = 10_000;

/// A store in memory that takes its memory when it is made, and no more after. It fails only where a read would carry its
/// file's count of bytes taken past 2 ^ 64 - 1, or a write would carry the lengths of its files together past its room, and
/// such a call changes nothing but the count of faults. Each write counts at once: a stop leaves what a read gives.
#[derive(Drop)]
pub struct SureStore {
    // the files one behind the other, in the order of their numbers, and what is free
    bytes: Vec<u8>,
    lengths: Vec<u64>,
    taken: Vec<u64>,
    faults: u64,
}

impl Model for SureStore {
    ghost use Rattle.std.specs.Prelude.{◌≡◌, ◌≤◌, length};
    ghost use Rattle.std.specs.List.{sum};
    ghost use Rattle.irl_disk.specs.Sure.{Held, pieces};

    ghost Value = { Held };

    ghost view = { λ store. record {
      files = pieces store.lengths.items store.bytes.items;
      taken = store.taken.items;
      room = length store.bytes.items;
      faults = store.faults;
    } };

    ghost invariant = { λ store. (length store.lengths.items ≡ 10000) × (length store.taken.items ≡ 10000)
        × (sum store.lengths.items ≤ length store.bytes.items) };
}

impl SureStore {
    /// A store whose files are empty, and may have `room` bytes together.
    pub fn new(alloc: Global, room: u64) -> Result<SureStore, AllocError>
        ensures empty { IfOk result (λ store. (f : ℕ) → sure_files store f ≡ []) }
        ensures no_fault { IfOk result (λ store. store.faults ≡ 0) }
        ensures none_taken { IfOk result (λ store. (f : ℕ) → sure_taken store f ≡ 0) }
        ensures room { IfOk result (λ store. store.room ≡ room) }
    {
        Ok(SureStore {
            bytes: vec![in alloc; 0; room as usize]?,
            lengths: zeros(alloc, FILES)?,
            taken: zeros(alloc, FILES)?,
            faults: 0,
        })
    }
}

fn zeros(alloc: Global, count: usize) -> Result<Vec<u64>, AllocError>
    ensures long { IfOk result (λ zeros. length zeros.items ≡ count) }
    ensures each { IfOk result (λ zeros. (k : ℕ) → slice_index zeros.items k ≡ 0) }
    ensures sum { IfOk result (λ zeros. sum zeros.items ≡ 0) }
{
    vec![in alloc; 0; count]
}

fn fault(faults: &mut u64) -> Failed
    ensures counted { faults.new ≡ counted faults.old }
    ensures later { faults.old ≤ faults.new }
    ensures rose { Rose faults.old faults.new }
{
    *faults = faults.saturating_add(1);
    Failed
}

fn total(lengths: &[u64]) -> u64
    requires { sum lengths.now < 2 ^ 64 }
    ensures { result ≡ sum lengths.now }
{
    lengths.iter().sum()
}

// The place of a file's first byte.
fn start_of(lengths: &[u64], f: usize) -> usize
    requires file { f ≤ length lengths.now }
    requires small { sum lengths.now < 2 ^ 64 }
    ensures { result ≡ sum (take f lengths.now) }
{
    total(&lengths[..f]) as usize
}

// The bytes of a file.
fn file_in<'a>(bytes: &'a [u8], lengths: &[u64], f: usize) -> &'a [u8]
    requires file { f < length lengths.now }
    requires fits { sum lengths.now ≤ length bytes.now }
    ensures { result.now ≡ files_cut lengths.now bytes.now f }
{
    let start = start_of(lengths, f);
    &bytes[start..start + lengths[f] as usize]
}

// Gives a file another length, and moves what stands behind it.
fn resize(bytes: &mut [u8], lengths: &mut [u64], f: usize, to: usize)
    requires file { f < length lengths.old }
    requires fits { sum lengths.old ≤ length bytes.old }
    requires room { sum lengths.old - slice_index lengths.old f + to ≤ length bytes.old }
    ensures lengths { lengths.new ≡ slice_set lengths.old f to }
    ensures fits { sum lengths.new ≤ length bytes.new }
    ensures files { ChangesFile f (Resized to) (files_cut lengths.old bytes.old) (files_cut lengths.new bytes.new) }
{
    let start = start_of(lengths, f);
    let end = start + lengths[f] as usize;
    let used = total(lengths) as usize;
    bytes.copy_within(end..used, start + to);
    lengths[f] = to as u64;
}

// Writes bytes over those of a file, which has so many.
fn overwrite(bytes: &mut [u8], lengths: &[u64], f: usize, at: usize, new: &[u8])
    requires file { f < length lengths.now }
    requires fits { sum lengths.now ≤ length bytes.old }
    requires within { at + length new.now ≤ slice_index lengths.now f }
    ensures { ChangesFile f (Holds at new.now) (files_cut lengths.now bytes.old) (files_cut lengths.now bytes.new) }
{
    let start = start_of(lengths, f) + at;
    bytes[start..start + new.len()].copy_from_slice(new);
}

// Writes bytes into a file, past its end too, where there is room for them.
fn write_into(
    bytes: &mut [u8],
    lengths: &mut [u64],
    f: usize,
    at: usize,
    new: &[u8],
) -> Result<(), Failed>
    requires file { f < length lengths.old }
    requires fits { sum lengths.old ≤ length bytes.old }
    requires place { at ≤ slice_index lengths.old f }
    ensures ok { OnOk result (ChangesFile f (Holds at new.now)
        (files_cut lengths.old bytes.old) (files_cut lengths.new bytes.new)) }
    ensures room { OnOk result
        (sum lengths.old + (at + length new.now - slice_index lengths.old f) ≤ length bytes.old) }
    ensures fits { sum lengths.new ≤ length bytes.new }
    ensures files { length lengths.new ≡ length lengths.old }
    ensures no_room { OnErr result
        (length bytes.old < sum lengths.old + (at + length new.now - slice_index lengths.old f)) }
    ensures bytes_stay { OnErr result (bytes.new ≡ bytes.old) }
    ensures lengths_stay { OnErr result (lengths.new ≡ lengths.old) }
{
    let rest = lengths[f] as usize - at;
    if new.len() > rest {
        let used = total(lengths) as usize;
        if new.len() - rest > bytes.len() - used {
            return Err(Failed);
        }
        resize(bytes, lengths, f, at + new.len());
    }
    overwrite(bytes, lengths, f, at, new);
    Ok(())
}

impl Store for SureStore {
    ghost told = { told_surely };

    ghost logs = { λ call is_ok old new. SureCall call is_ok old new };

    fn length(&mut self, f: u16) -> Result<u64, Failed> {
        Ok(self.lengths[f as usize])
    }

    fn read(&mut self, f: u16, at: u64, into: &mut [u8]) -> Result<usize, Failed> {
        let rest = &file_in(&self.bytes, &self.lengths, f as usize)[at as usize..];
        let count = rest.len().min(into.len());
        let Some(taken) = self.taken[f as usize].checked_add(count as u64) else {
            return Err(fault(&mut self.faults));
        };
        into[..count].copy_from_slice(&rest[..count]);
        self.taken[f as usize] = taken;
        Ok(count)
    }

    fn write(&mut self, f: u16, at: u64, bytes: &[u8]) -> Result<(), Failed> {
        let (f, at) = (f as usize, at as usize);
        match write_into(&mut self.bytes, &mut self.lengths, f, at, bytes) {
            Ok(()) => Ok(()),
            Err(Failed) => Err(fault(&mut self.faults)),
        }
    }

    fn cut(&mut self, f: u16, to: u64) -> Result<(), Failed> {
        resize(&mut self.bytes, &mut self.lengths, f as usize, to as usize);
        Ok(())
    }

    fn sync(&mut self, _f: u16) -> Result<(), Failed> {
        Ok(())
    }

    ghost is_consistent = { sure_consistent };
}
