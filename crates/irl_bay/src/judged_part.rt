ghost use Rattle.std.specs.Prelude.{◌≡◌, ◌≤◌, ◌<◌, length, IfOk, Some, slice_get};
ghost use Rattle.std.specs.List.{AllByRecursion};
ghost use Rattle.irl_base.specs.Limits.{max_text};
ghost use Rattle.irl_layout.specs.JudgedEntries.{texts_length as length_of_texts};
ghost use Rattle.irl_layout.specs.JudgedEntries.{with_text as judged_with_text, with_texts as judged_with_texts};
ghost use Rattle.irl_bay.specs.JudgedParts.{IsPart, as_judged};

use irl_layout::JudgedEntry;
use irl_offer::{Judged, Offer, Op, Text, Verdict};
use std::alloc::{AllocError, Global};
use std::marker::Model;

/// A part of the judged offers, in order, with their texts in one piece. Contracts see it as a list of them.
#[derive(Drop)]
pub struct JudgedPart {
    entries: Vec<JudgedEntry>,
    texts: Vec<u8>,
}

/// A judged offer of a part, which lends its text.
#[derive(Clone, Copy)]
pub struct JudgedRef<'a> {
    pub bucket: u32,
    pub op: Op,
    pub key: u64,
    pub value: u64,
    pub from: u64,
    pub verdict: Option<Verdict>,
    pub aux: &'a [u8],
}

impl Model for JudgedPart {
    ghost use Rattle.std.specs.Prelude.{List};
    ghost use Rattle.irl_offer.specs.declared.receipt.Judged.{Judged};
    ghost use Rattle.irl_layout.specs.JudgedEntries.{with_texts};
    ghost use Rattle.irl_bay.specs.JudgedParts.{IsPart};

    ghost Value = { List Judged };

    ghost view = { λ p. with_texts p.entries.items p.texts.items };

    ghost invariant = { λ p. IsPart p.entries.items p.texts.items };
}

impl JudgedPart {
    // The part that has these entries, and these texts, which are those of the entries one behind the other.
    pub(crate) fn new(entries: Vec<JudgedEntry>, texts: Vec<u8>) -> JudgedPart
        requires { IsPart entries.items texts.items }
        ensures { result ≡ judged_with_texts entries.items texts.items }
    {
        JudgedPart { entries, texts }
    }

    /// How many judged offers it has.
    pub fn len(&self) -> usize
        ensures { result ≡ length self.now }
    {
        self.entries.len()
    }

    /// A judged offer, by its place in the part. It takes no memory.
    pub fn get(&self, i: usize) -> JudgedRef<'_>
        requires { i < length self.now }
        ensures { slice_get self.now i ≡ Some (as_judged result) }
    {
        let first = self.entries[0];
        let entry = self.entries[i];
        let (_, texts) = self.texts.split_at((entry.place - first.place) as usize);
        let (aux, _) = texts.split_at(entry.aux_len as usize);
        JudgedRef {
            bucket: u32::from(entry.bucket),
            op: entry.op,
            key: entry.key,
            value: entry.value,
            from: entry.from,
            verdict: entry.verdict,
            aux,
        }
    }

    /// The judged offers, each with a text of its own.
    pub fn to_vec(&self, alloc: Global) -> Result<Vec<Judged>, AllocError>
        ensures { IfOk result (λ found. found.items ≡ self.now) }
    {
        with_texts(alloc, &self.entries, &self.texts)
    }
}

// The judged offers of entries whose texts stand one behind the other.
fn with_texts(
    alloc: Global,
    entries: &[JudgedEntry],
    texts: &[u8],
) -> Result<Vec<Judged>, AllocError>
    requires length { length texts.now ≡ length_of_texts entries.now }
    requires each { AllByRecursion (λ entry. entry.aux_len ≤ max_text) entries.now }
    ensures { IfOk result (λ found. found.items ≡ judged_with_texts entries.now texts.now) }
{
    let mut found = Vec::with_capacity(alloc, entries.len())?;
    let mut rest = texts;
    for entry in entries {
        let (text, behind) = rest.split_at(entry.aux_len as usize);
        found.push_reserved(with_text(alloc, entry, text)?);
        rest = behind;
    }
    Ok(found)
}

// The judged offer of an entry with this text.
fn with_text(alloc: Global, entry: &JudgedEntry, text: &[u8]) -> Result<Judged, AllocError>
    requires { length text.now ≤ max_text }
    ensures { IfOk result (λ one. one ≡ judged_with_text entry.now text.now) }
{
    Ok(Judged {
        bucket: u32::from(entry.bucket),
        offer: Offer {
            op: entry.op,
            key: entry.key,
            value: entry.value,
            from: entry.from,
            aux: Text::from_bytes(alloc, text)?,
        },
        verdict: entry.verdict,
    })
}
