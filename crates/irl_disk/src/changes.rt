ghost use Rattle.std.specs.Prelude.{◌≡◌, ◌+◌, ◌^◌, ◌<◌, ◌≤◌, ℕ, length, min, IfOk, OnErr, OnOk};
ghost use Rattle.irl_disk.specs.Disk.{Holds, IsPrefix};
ghost use Rattle.irl_disk.specs.Model.{after_write, at_rest};
ghost use Rattle.irl_disk.specs.Calls.{EndsWithin, ShowsNext, files_of, read_after};
ghost use Rattle.irl_disk.specs.Changes.{TearsRange, TornNext, Writes, AllStay};

use crate::calls::{Call, LoggedCall, Part};
use std::alloc::{AllocError, Global};
use std::collections::BTreeMap;

// The bytes of a file, which has none where it was never written.
pub fn bytes_in(files: &BTreeMap<u16, Vec<u8>>, file: u16) -> &[u8]
    ensures { result.now ≡ files_of files.now file }
{
    match files.get(&file) {
        Some(bytes) => bytes,
        None => &[],
    }
}

// Puts other bytes in a file's place.
fn replace(files: &mut BTreeMap<u16, Vec<u8>>, file: u16, bytes: Vec<u8>) -> Result<(), AllocError>
    ensures ok { OnOk result (Writes file (λ _ new. new ≡ bytes.items) files.old files.new) }
    ensures err { OnErr result (AllStay files.old files.new) }
{
    files.insert(file, bytes)?;
    Ok(())
}

// The old bytes with these at a place.
fn overwritten(alloc: Global, old: &[u8], at: usize, bytes: &[u8]) -> Result<Vec<u8>, AllocError>
    requires { at ≤ length old.now }
    ensures new { IfOk result (λ new. Holds at bytes.now old.now new.items) }
    ensures within { at + length bytes.now < 2 ^ 64 }
{
    let mut new = old[..at].to_vec(alloc)?;
    new.extend_from_slice(bytes)?;
    if bytes.len() < old.len() - at {
        new.extend_from_slice(&old[at + bytes.len()..])?;
    }
    Ok(new)
}

// Makes the change of a write. What would begin past a file's end begins at it.
fn write_over(
    files: &mut BTreeMap<u16, Vec<u8>>,
    alloc: Global,
    file: u16,
    at: u64,
    bytes: &[u8],
) -> Result<(), AllocError>
    ensures ok { OnOk result (Writes file (λ old new. Holds (min at (length old)) bytes.now old new)
        files.old files.new) }
    ensures within { min at (length (files_of files.old file)) + length bytes.now < 2 ^ 64 }
    ensures err { OnErr result (AllStay files.old files.new) }
{
    let old = bytes_in(files, file);
    let start = (at as usize).min(old.len());
    let new = overwritten(alloc, old, start, bytes)?;
    replace(files, file, new)
}

// Makes the change of a cut.
fn cut_off(
    files: &mut BTreeMap<u16, Vec<u8>>,
    alloc: Global,
    file: u16,
    to: u64,
) -> Result<(), AllocError>
    ensures ok { OnOk result (Writes file (IsPrefix to) files.old files.new) }
    ensures err { OnErr result (AllStay files.old files.new) }
{
    let old = bytes_in(files, file);
    let new = old[..(to as usize).min(old.len())].to_vec(alloc)?;
    replace(files, file, new)
}

// Makes a call's change of what a read gives.
pub fn carry_out(
    files: &mut BTreeMap<u16, Vec<u8>>,
    alloc: Global,
    call: &Call,
) -> Result<(), AllocError>
    ensures ok { OnOk result ((f : ℕ) → files_of files.new f ≡ read_after call.now f (files_of files.old f)) }
    ensures within { EndsWithin call.now (files_of files.old) }
    ensures err { OnErr result (AllStay files.old files.new) }
{
    match call {
        Call::Write { file, at, bytes } => write_over(files, alloc, *file, *at, bytes),
        Call::Cut { file, to } => cut_off(files, alloc, *file, *to),
        Call::Query | Call::Sync { .. } => Ok(()),
    }
}

// The bytes with `A5` at the odd places of a range, as far as they go.
fn torn(mut bytes: Vec<u8>, start: usize, count: usize) -> Vec<u8>
    requires { start ≤ length bytes.items }
    ensures { TearsRange start (start + count) bytes.items result.items }
{
    let end = start + count.min(bytes.len() - start);
    for i in start..end {
        if i % 2 == 1 {
            bytes[i] = 0xA5;
        }
    }
    bytes
}

// What a read gives after a write, done or not.
fn written(
    alloc: Global,
    old: &[u8],
    start: usize,
    bytes: &[u8],
    is_done: bool,
) -> Result<Vec<u8>, AllocError>
    requires { start ≤ length old.now }
    ensures { IfOk result (λ new. new.items ≡ (after_write is_done start bytes.now (at_rest old.now)).now) }
{
    if is_done {
        overwritten(alloc, old, start, bytes)
    } else {
        old.to_vec(alloc)
    }
}

// A torn file after one more write.
fn torn_by_write(
    alloc: Global,
    old: &[u8],
    at: u64,
    bytes: &[u8],
    is_done: bool,
) -> Result<Vec<u8>, AllocError>
    ensures { IfOk result (λ new. TornNext is_done at bytes.now old.now new.items) }
{
    let start = (at as usize).min(old.len());
    let new = written(alloc, old, start, bytes, is_done)?;
    Ok(torn(new, start, bytes.len()))
}

// Puts a file's bytes of one map into another.
fn copy_file(
    files: &mut BTreeMap<u16, Vec<u8>>,
    alloc: Global,
    file: u16,
    from: &BTreeMap<u16, Vec<u8>>,
) -> Result<(), AllocError>
    ensures { OnOk result (Writes file (λ _ new. new ≡ files_of from.now file) files.old files.new) }
{
    let bytes = bytes_in(from, file).to_vec(alloc)?;
    replace(files, file, bytes)
}

// The files as synced, after one more entry.
fn sync_next(
    shown: &mut BTreeMap<u16, Vec<u8>>,
    alloc: Global,
    entry: &LoggedCall,
    now: &BTreeMap<u16, Vec<u8>>,
) -> Result<(), AllocError>
    ensures { OnOk result (ShowsNext Part.Old entry.now (files_of now.now) (files_of shown.old) (files_of shown.new)) }
{
    match entry.call {
        Call::Sync { file } if entry.is_done => copy_file(shown, alloc, file, now),
        _ => Ok(()),
    }
}

// The torn files, after one more entry.
fn tear_next(
    shown: &mut BTreeMap<u16, Vec<u8>>,
    alloc: Global,
    entry: &LoggedCall,
    now: &BTreeMap<u16, Vec<u8>>,
) -> Result<(), AllocError>
    ensures { OnOk result (ShowsNext Part.Torn entry.now (files_of now.now) (files_of shown.old) (files_of shown.new)) }
{
    match &entry.call {
        Call::Write { file, at, bytes } => {
            let old = bytes_in(shown, *file);
            let new = torn_by_write(alloc, old, *at, bytes, entry.is_done)?;
            replace(shown, *file, new)
        }
        Call::Cut { file, to } => {
            if entry.is_done {
                return cut_off(shown, alloc, *file, *to);
            }
            Ok(())
        }
        Call::Sync { file } => {
            if entry.is_done {
                return copy_file(shown, alloc, *file, now);
            }
            Ok(())
        }
        Call::Query => Ok(()),
    }
}

// The files that a stop leaves, after one more entry, where `now` has what a read gave before it.
pub fn show_next(
    part: Part,
    shown: &mut BTreeMap<u16, Vec<u8>>,
    alloc: Global,
    entry: &LoggedCall,
    now: &BTreeMap<u16, Vec<u8>>,
) -> Result<(), AllocError>
    ensures { OnOk result (ShowsNext part entry.now (files_of now.now) (files_of shown.old) (files_of shown.new)) }
{
    match part {
        Part::Old => sync_next(shown, alloc, entry, now),
        Part::New if entry.is_done => carry_out(shown, alloc, &entry.call),
        Part::New => Ok(()),
        Part::Torn => tear_next(shown, alloc, entry, now),
    }
}
