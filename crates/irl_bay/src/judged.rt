ghost use Rattle.std.specs.Prelude.{◌≡◌, ◌+◌, ◌-◌, ◌*◌, ◌≤◌, ◌<◌, ◌^◌, ℕ, None, Some, min, take, drop, length, true};
ghost use Rattle.std.specs.Prelude.{IfOk, IfSome, IsErrOf, slice_get};
ghost use Rattle.std.specs.List.{flat_map};
ghost use Rattle.std.specs.Option.{ForSome};
ghost use Rattle.irl_model.specs.Book.{gone, judged as judged_of};
ghost use Rattle.irl_layout.specs.declared.judged_entry.JudgedEntry.{JudgedEntry};
ghost use Rattle.irl_bay.specs.Drum.{judged_front};
ghost use Rattle.irl_bay.specs.Holding.{IsLong};
ghost use Rattle.irl_layout.specs.JudgedEntries.{entry_spelling};
ghost use Rattle.irl_layout.specs.JudgedEntries.{first_place as place_of_first, texts_length as length_of_texts};
ghost use Rattle.irl_bay.specs.JudgedSpoilt.{FitsBehind, FitEach, NoneFits};
ghost use Rattle.irl_bay.specs.Merges.{ReadsJudged};

use crate::bay::Bay;
use crate::judged_part::JudgedPart;
use irl_disk::Store;
use irl_journal::read_part;
use irl_layout::{BayFile, JudgedEntry};
use irl_offer::{Fault, Judged, bucket_of};

impl Bay {
    /// So many judged offers, or as many as there are, from the one with this place in the judged order on. It reads
    /// their entries in one piece and their texts in another. A refusal ends nothing.
    pub fn judged_from<S: Store>(
        &self,
        store: &mut S,
        i: u64,
        most: u32,
    ) -> Result<JudgedPart, Fault>
        requires sound { self.now.is_sound ≡ true }
        requires place { i < self.now.last.judged }
        requires long { ForSome (S.told store.old).files (λ files. IsLong self.now files) }
        ensures count { IfOk result (λ found. length found ≡ min most (self.now.last.judged - i)) }
        // They are those of the book.
        ensures reads { ReadsJudged result (λ found book. found ≡ take most (drop (i - gone book) (judged_of book)))
            self.now (S.told store.old) (S.told store.new) }
    {
        let count = u64::from(most).min(self.last.judged - i);
        let bytes = read_part(
            self.alloc,
            store,
            BayFile::Judged.number(self.base),
            48 * i,
            48 * count,
        )?;
        let entries = self.decode_entries(&bytes, i)?;
        let (from, length) = (first_place(&entries), texts_length(&entries));
        let texts = read_part(
            self.alloc,
            store,
            BayFile::Texts.number(self.base),
            from,
            length,
        )?;
        Ok(JudgedPart::new(entries, texts))
    }

    /// A judged offer, by its place in the judged order.
    pub fn judged<S: Store>(&self, store: &mut S, i: u64) -> Result<Judged, Fault>
        requires sound { self.now.is_sound ≡ true }
        requires place { i < self.now.last.judged }
        requires long { ForSome (S.told store.old).files (λ files. IsLong self.now files) }
        // It is that of the book.
        ensures reads { ReadsJudged result (λ found book. slice_get (judged_of book) (i - gone book) ≡ Some found)
            self.now (S.told store.old) (S.told store.new) }
    {
        let part = self.judged_from(store, i, 1)?;
        let mut found = part.to_vec(self.alloc)?;
        Ok(found.swap_remove(0))
    }

    // The entries that these bytes of the judged file are, the first of which is that of the judged offer with this
    // place.
    fn decode_entries(&self, bytes: &[u8], i: u64) -> Result<Vec<JudgedEntry>, Fault>
        requires whole { (count : ℕ) × (length bytes.now ≡ 48 * count) × (i + count ≤ self.now.last.judged) }
        ensures fit { IfOk result (λ entries. FitEach self.now None entries.items) }
        ensures bytes { IfOk result (λ entries. flat_map entry_spelling entries.items ≡ bytes.now) }
        ensures damaged { (f at : ℕ) → IsErrOf result (Fault.Damaged f at) → (f ≡ (judged_front self.now).file)
            × ((j : ℕ) × (48 * (j + 1) ≤ length bytes.now) × (at ≡ 48 * (i + j)) × NoneFits self.now bytes.now j) }
        ensures full { (n : ℕ) → IsErrOf result (Fault.Full n) → ⊥ }
        ensures failed { IsErrOf result Fault.Failed → ⊥ }
    {
        let mut entries = Vec::with_capacity(self.alloc, bytes.len() / 48)?;
        let mut before = None;
        let mut rest = bytes;
        while let Some((one, behind)) = rest.split_first_chunk::<48>() {
            match self.decode_behind(before, one) {
                Some(entry) => {
                    entries.push_reserved(entry);
                    before = Some(entry);
                }
                None => {
                    let at = 48 * (i + entries.len() as u64);
                    return Err(Fault::Damaged(BayFile::Judged.number(self.base), at));
                }
            }
            rest = behind;
        }
        Ok(entries)
    }

    // The entry that these bytes are, if it may stand behind another, where there is one before it.
    fn decode_behind(&self, before: Option<JudgedEntry>, bytes: &[u8; 48]) -> Option<JudgedEntry>
        requires { IfSome before (λ one. one.place + one.aux_len < 2 ^ 64) }
        ensures found { IfSome result (λ entry. entry_spelling entry ≡ bytes.now) }
        ensures fits { IfSome result (FitsBehind self.now before) }
        ensures none { result ≡ None → (entry : JudgedEntry) →
            FitsBehind self.now before entry → entry_spelling entry ≡ bytes.now → ⊥ }
    {
        let entry = JudgedEntry::decode(bytes)?;
        let place = match before {
            Some(one) => one.place + u64::from(one.aux_len),
            None => entry.place,
        };
        let is_of_bucket = u32::from(entry.bucket) == bucket_of(entry.key, self.settings.buckets);
        let is_committed = entry.place <= self.last.texts
            && u64::from(entry.aux_len) <= self.last.texts - entry.place;
        if is_of_bucket && is_committed && entry.place == place {
            Some(entry)
        } else {
            None
        }
    }
}

// Where the text of the first entry stands.
fn first_place(entries: &[JudgedEntry]) -> u64
    ensures { result ≡ place_of_first entries.now }
{
    match entries {
        [first, ..] => first.place,
        [] => 0,
    }
}

// How many bytes the texts of entries have.
fn texts_length(entries: &[JudgedEntry]) -> u64
    requires { length_of_texts entries.now < 2 ^ 64 }
    ensures { result ≡ length_of_texts entries.now }
{
    entries.iter().map(|entry| u64::from(entry.aux_len)).sum()
}
