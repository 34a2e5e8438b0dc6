ghost use Rattle.std.specs.Prelude.{◌≡◌, ◌≤◌, None, length, slice_get, option_copied, option_map, IfOk, OnOk, IfSome, All};
ghost use Rattle.irl_pld.specs.Names.{bad_line};
ghost use Rattle.irl_record.specs.Limits.{max_suffixes};
ghost use Rattle.irl_record.specs.Taped.{record_at};
ghost use Rattle.irl_record.specs.Index.{Enters};
ghost use Rattle.irl_record.specs.Reading.{blank, new_web, with_suffix as suffixed, with_seed as seeded, with_record as recorded, web_of};
ghost use Rattle.irl_key.specs.Links.{canon_of, IsCanonicalText};

use crate::names::Names;
use crate::record::Record;
use irl_key::{Canon, Web, canonical};
use irl_offer::Text;
use std::alloc::{AllocError, Global};
use std::collections::BTreeMap;
use std::marker::Model;

/// What answers a fetcher in place of the network. Contracts see it as a `Taped`.
///
/// Its records stand in the order of the tape. An index has the place of each by its URL's text, so a look-up takes time
/// that is logarithmic in their number.
#[derive(Drop)]
pub struct Tape {
    names: Names,
    seeds: Vec<Web>,
    records: Vec<(Web, Record)>,
    index: BTreeMap<Vec<u8>, usize>,
}

impl Model for Tape {
    ghost use Rattle.irl_record.specs.Taped.{Taped};

    ghost Value = { Taped };

    ghost use Rattle.std.specs.Prelude.{All};
    ghost use Rattle.irl_key.specs.Links.{IsCanonicalText};
    ghost use Rattle.irl_record.specs.Index.{IsIndexOf};

    ghost view = { λ t. record { suffixes = t.names; seeds = t.seeds.items; records = t.records.items } };

    ghost invariant = { λ t. All IsCanonicalText t.seeds.items × IsIndexOf t.index t.records.items };
}

impl Tape {
    /// An empty tape. It takes no memory.
    pub(crate) fn new(alloc: Global) -> Tape
        ensures { result ≡ blank }
    {
        Tape {
            names: Names::new(alloc),
            seeds: Vec::new(alloc),
            records: Vec::new(alloc),
            index: BTreeMap::new(alloc),
        }
    }

    /// The text of the suffixes: their names joined by line feeds, no name twice.
    pub fn suffixes(&self) -> &Text
        ensures value { result.now ≡ self.now.suffixes }
        ensures good { bad_line result.now ≡ None }
        ensures short { length result.now ≤ max_suffixes }
    {
        self.names.text()
    }

    /// Where a crawl begins, in the order of the tape.
    pub fn seeds(&self) -> &[Web]
        ensures value { result.now ≡ self.now.seeds }
        // Each has a canonical text: at most 2,048 bytes.
        ensures canonical { All IsCanonicalText result.now }
    {
        &self.seeds
    }

    /// What the tape has of a URL, by its canonical text.
    pub(crate) fn record(&self, url: &[u8]) -> Option<&Record>
        ensures { option_copied result ≡ record_at self.now.records url.now }
    {
        match self.index.get(url) {
            Some(place) => record_in(&self.records, *place),
            None => None,
        }
    }

    /// The tape after a line of a suffix, if the line is taken.
    pub(crate) fn with_suffix(self, alloc: Global, name: &[u8]) -> Result<Option<Tape>, AllocError>
        ensures { IfOk result (λ tape. tape ≡ suffixed self name.now) }
    {
        let Tape {
            names,
            seeds,
            records,
            index,
        } = self;
        let Some(names) = names.add(alloc, name)? else {
            return Ok(None);
        };
        Ok(Some(Tape {
            names,
            seeds,
            records,
            index,
        }))
    }

    /// The tape after a line of a seed, if the line is taken.
    pub(crate) fn with_seed(self, alloc: Global, url: &[u8]) -> Result<Option<Tape>, AllocError>
        ensures { IfOk result (λ tape. tape ≡ seeded self url.now) }
    {
        let Some(web) = web_of(alloc, url)? else {
            return Ok(None);
        };
        let mut tape = self;
        tape.seeds.push(web)?;
        Ok(Some(tape))
    }

    /// The tape with one more record, behind the others.
    pub(crate) fn with_record(
        self,
        alloc: Global,
        web: Web,
        entry: Record,
    ) -> Result<Tape, AllocError>
        ensures { IfOk result (λ tape. tape ≡ recorded self web entry) }
    {
        let mut tape = self;
        enter(alloc, &mut tape.index, web.text(), tape.records.len())?;
        tape.records.push((web, entry))?;
        Ok(tape)
    }

    /// The page of a URL, if it has one and the tape has no record of it yet.
    pub(crate) fn new_web(&self, alloc: Global, url: &[u8]) -> Result<Option<Web>, AllocError>
        ensures { IfOk result (λ web. web ≡ new_web self.now.records url.now) }
    {
        let Some(web) = web_of(alloc, url)? else {
            return Ok(None);
        };
        if self.record(web.text()).is_some() {
            return Ok(None);
        }
        Ok(Some(web))
    }
}

// The record at a place, if there is one.
fn record_in(records: &[(Web, Record)], place: usize) -> Option<&Record>
    ensures { option_copied result ≡ option_map (λ r. r.1) (slice_get records.now place) }
{
    let (_, record) = records.get(place)?;
    Some(record)
}

// Enters the place of a URL's record, unless the URL has one already.
fn enter(
    alloc: Global,
    index: &mut BTreeMap<Vec<u8>, usize>,
    url: &[u8],
    place: usize,
) -> Result<(), AllocError>
    ensures { OnOk result (Enters url.now place index.old.entries index.new.entries) }
{
    if index.contains_key(url) {
        return Ok(());
    }
    let key = url.to_vec(alloc)?;
    index.insert(key, place)?;
    Ok(())
}

// The page of a URL, if it has one.
fn web_of(alloc: Global, url: &[u8]) -> Result<Option<Web>, AllocError>
    ensures value { IfOk result (λ web. web ≡ web_of (canon_of None url.now)) }
    ensures found { IfOk result (λ web. IfSome web IsCanonicalText) }
{
    match canonical(alloc, None, url)? {
        Canon::Web(web) => Ok(Some(web)),
        Canon::NotHttp | Canon::Bad | Canon::TooLong => Ok(None),
    }
}
