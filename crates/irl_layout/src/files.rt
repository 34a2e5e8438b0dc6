ghost use Rattle.std.specs.Prelude.{◌≡◌, ◌<◌, ◌≤◌};
ghost use Rattle.irl_layout.specs.BayFiles.{file_of, max_base, IsPartOf};

/// The greatest number that a bay's first file may have.
pub const MAX_BASE: u16 = 9_000;

/// A file of a bay, by what it keeps.
#[derive(Clone, Copy, Debug, PartialEq, Eq)]
pub enum BayFile {
    /// A journal with a record for each merge.
    Manifest,
    /// A side of the cache, 0 or 1: the keys with their values, keys rising.
    Cache(u8),
    /// The judged offers, without their texts.
    Judged,
    /// The texts of the judged offers.
    Texts,
    /// On a side, 0 or 1, the journal of a bucket's offers, without their texts.
    Journal(u8, u32),
    /// On a side, 0 or 1, the texts of a bucket's offers.
    Aux(u8, u32),
}

impl BayFile {
    /// The number of the file in a bay whose first file has this number.
    pub fn number(self, base: u16) -> u16
        requires base { base ≤ max_base }
        requires part { IsPartOf 64 self }
        ensures value { result ≡ file_of base 0 self }
        ensures within { result < 10000 }
    {
        base + match self {
            BayFile::Manifest => 0,
            BayFile::Cache(side) => 1 + u16::from(side),
            BayFile::Judged => 3,
            BayFile::Texts => 4,
            BayFile::Journal(side, b) => 10 + 490 * u16::from(side) + 2 * b as u16,
            BayFile::Aux(side, b) => 11 + 490 * u16::from(side) + 2 * b as u16,
        }
    }
}
