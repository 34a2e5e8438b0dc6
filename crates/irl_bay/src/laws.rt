ghost use Rattle.std.specs.Prelude.{◌≡◌, ◌+◌, ◌<◌, ◌≤◌, ℕ, Some};
ghost use Rattle.irl_offer.specs.Settings.{AreValid};
ghost use Rattle.irl_model.specs.Book.{Book, blank_book};
ghost use Rattle.irl_disk.specs.Disk.{Files, ChangesAmong};
ghost use Rattle.irl_journal.specs.Visiting.{IsOpened};
ghost use Rattle.irl_layout.specs.BayFiles.{IsFileOf, IsBucketFile};
ghost use Rattle.irl_bay.specs.Standing.{Stands};
ghost use Rattle.irl_bay.specs.Drum.{Drum, IsDrum};
ghost use Rattle.irl_bay.specs.Holding.{Holds, IsLong};
ghost use Rattle.irl_bay.specs.Making.{IsUnmade, IsJournalOf};
ghost use Rattle.irl_bay.specs.Merging.{IsMergeFile};

use crate::bay::Bay;
use irl_disk::Store;
use irl_offer::Settings;

/// The files of a bay stand for at most one book.
pub fn one_book()
    ensures { (base : ℕ) (settings : Settings) (x y : Book) (files : Files) →
        Stands base settings x files → Stands base settings y files → x ≡ y }
{}

/// What a stop now may leave stands for the book that an open bay holds, and what a store tells is as long as what is
/// committed.
pub fn what_is_held_stands<S: Store>(store: &S, bay: &Bay)
    ensures stands { (book : Book) (image : Files) → IsDrum bay.now →
        Holds (S.told store.now).images bay.now book → (S.told store.now).images image →
        Stands bay.now.base bay.now.settings book image }
    ensures long { (book : Book) (files : Files) → Holds (S.told store.now).images bay.now book →
        (S.told store.now).files ≡ Some files → IsLong bay.now files }
{}

/// What lies in files that aren't the bay's means nothing.
pub fn other_files_are_free()
    ensures stands { (base : ℕ) (settings : Settings) (book : Book) (old new : Files) →
        ((f : ℕ) → IsFileOf base settings.buckets f → new f ≡ old f) →
        Stands base settings book old → Stands base settings book new }
    ensures long { (drum : Drum) (old new : Files) → IsDrum drum →
        ((f : ℕ) → IsFileOf drum.base drum.settings.buckets f → new f ≡ old f) → IsLong drum old → IsLong drum new }
{}

/// Opening the journals of a bay keeps its book.
pub fn opening_keeps_the_book()
    ensures { (base : ℕ) (settings : Settings) (book : Book) (old new : Files) →
        ChangesAmong (IsJournalOf base settings.buckets) (λ f. IsOpened) old new →
        Stands base settings book old → Stands base settings book new }
{}

/// Files of a bay that wasn't made stand for the book without an offer.
pub fn a_blank_bay_stands()
    ensures { (base : ℕ) (settings : Settings) (files : Files) → AreValid settings →
        IsUnmade base settings.buckets files →
        Stands base settings (blank_book settings.buckets settings.rule) files }
{}

/// The files that calls on a bay change are the bay's. A bay's files are among the 628 from its first on, and
/// those of two bays whose first files are 100 and 300 differ.
pub fn a_bays_files_are_its_own()
    ensures bucket { (base buckets side b f : ℕ) → b < buckets → IsBucketFile base side b f → side ≤ 1 →
        IsFileOf base buckets f }
    ensures journals { (base buckets f : ℕ) → IsJournalOf base buckets f → IsFileOf base buckets f }
    ensures merge { (drum : Drum) (f : ℕ) → IsMergeFile drum f → IsFileOf drum.base drum.settings.buckets f }
    ensures within { (base buckets f : ℕ) → buckets ≤ 64 → IsFileOf base buckets f → (base ≤ f) × (f < base + 628) }
    ensures apart { (buckets f : ℕ) → buckets ≤ 64 → IsFileOf 100 buckets f → IsFileOf 300 buckets f → ⊥ }
{}
