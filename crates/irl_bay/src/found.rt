ghost use Rattle.std.specs.Prelude.{◌≡◌, ◌+◌, ◌^◌, ◌<◌, ◌≤◌, length};
ghost use Rattle.irl_layout.specs.EntryRuns.{text_length as text_length_of};

use irl_offer::Entry;

/// What is found in the runs of a bucket's journal.
#[derive(Clone, Copy, Debug, PartialEq, Eq)]
pub struct Found {
    /// How many offers there are, and the bytes of their texts.
    pub count: u64,
    pub texts: u128,
    /// The gate of the record with the first offer that isn't judged, how many of the record are, and the bytes of the
    /// texts before that offer's. They mean nothing where there is none.
    pub gate: u64,
    pub skip: u64,
    pub text: u128,
}

impl Found {
    ghost use Rattle.irl_bay.specs.Finding.{Advances, nothing_found};

    /// What is found in no run.
    pub fn nothing() -> Found
        ensures { result ≡ nothing_found }
    {
        Found {
            count: 0,
            texts: 0,
            gate: 0,
            skip: 0,
            text: 0,
        }
    }

    /// What is found with one run more, whose gate stands at this place. Of all offers those below the cut are judged.
    pub fn advanced(&self, cut: u64, at: u64, run: &[Entry]) -> Found
        ensures { Advances cut at run.now self.now result }
    {
        let length = run.len() as u64;
        let count = self.count.saturating_add(length);
        let texts = self.texts.saturating_add(text_length(run));
        if self.count <= cut && cut - self.count < length {
            let skip = cut - self.count;
            let before = text_length(&run[..skip as usize]);
            return Found {
                count,
                texts,
                gate: at,
                skip,
                text: self.texts.saturating_add(before),
            };
        }
        Found {
            count,
            texts,
            ..*self
        }
    }
}

// How many bytes the texts of a run's entries have.
fn text_length(run: &[Entry]) -> u128
    ensures { result ≡ text_length_of run.now }
{
    run.iter().map(|entry| u128::from(entry.aux_len)).sum()
}
