ghost use Rattle.std.specs.Prelude.{◌≡◌, ◌++◌, List, true, false, IfOk, MatchOption};
ghost use Rattle.irl_offer.specs.Buckets.{IsBucketCount};
ghost use Rattle.irl_offer.specs.Entries.{entry_bytes};
ghost use Rattle.irl_offer.specs.declared.entry.Entry.{Entry as EntryValue};
ghost use Rattle.irl_layout.specs.EntryRuns.{IsEntryOf, IsEntryRun, HasNoRun, entries_bytes};

use irl_offer::{ENTRY_LEN, Entry, Settings, bucket_of, decode};
use std::alloc::AllocError;

/// Puts the entries of a bucket's run behind others. It answers false where the payload is no run: that of at least one
/// of the bucket's entries and at most as many as an array holds. What stands behind the others then means nothing.
pub fn read_run(
    settings: &Settings,
    b: u32,
    payload: &[u8],
    entries: &mut Vec<Entry>,
) -> Result<bool, AllocError>
    requires { IsBucketCount settings.now.buckets }
    ensures run { IfOk result (λ is_run. is_run ≡ true → (run : List EntryValue) × IsEntryRun settings.now b run
        × (payload.now ≡ entries_bytes run) × (entries.new.items ≡ entries.old.items ++ run)) }
    ensures none { IfOk result (λ is_run. is_run ≡ false → HasNoRun settings.now b payload.now) }
{
    if payload.is_empty() || payload.len() > ENTRY_LEN * settings.array as usize {
        return Ok(false);
    }
    let mut rest = payload;
    while let Some((bytes, behind)) = rest.split_first_chunk::<27>() {
        let Some(entry) = read_entry(settings.buckets, b, bytes) else {
            return Ok(false);
        };
        entries.push(entry)?;
        rest = behind;
    }
    Ok(rest.is_empty())
}

// The bucket's entry that these bytes are, if they are one.
fn read_entry(buckets: u32, b: u32, bytes: &[u8; 27]) -> Option<Entry>
    requires { IsBucketCount buckets }
    ensures { MatchOption result
        ((entry : EntryValue) → IsEntryOf buckets b entry → bytes.now ≡ entry_bytes entry → ⊥)
        (λ entry. IsEntryOf buckets b entry × (bytes.now ≡ entry_bytes entry)) }
{
    let entry = decode(bytes)?;
    if bucket_of(entry.key, buckets) != b {
        return None;
    }
    Some(entry)
}
