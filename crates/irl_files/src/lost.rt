ghost use Rattle.std.specs.Prelude.{◌≡◌, ◌≢◌, ℕ, ◌^◌, false, true, IfOk, slice_index_or, vec_len};

use std::alloc::{AllocError, Global};

/// Which syncs have failed in this process. After a failed sync the system may have dropped what was to be written, and
/// the next one may succeed without it.
#[derive(Drop)]
pub(crate) struct Lost {
    /// Whether a sync of the file failed, for each number.
    files: Vec<bool>,
    /// Whether a sync of a folder failed.
    has_folder: bool,
    ghost slots: { vec_len files ≡ 2 ^ 16 },
}

/// So many times `false`.
fn all_false(alloc: Global, count: usize) -> Result<Vec<bool>, AllocError>
    ensures len { IfOk result (λ v. vec_len v ≡ count) }
    ensures each { IfOk result (λ v. (i : ℕ) → slice_index_or v.items i false ≡ false) }
{
    let all = vec![in alloc; false; count]?;
    Ok(all)
}

impl Lost {
    ghost use Rattle.irl_files.specs.Lost.{is_lost, KeepsLost};

    /// No failed sync.
    pub(crate) fn new(alloc: Global) -> Result<Lost, AllocError>
        ensures { IfOk result (λ lost. (f : ℕ) → is_lost lost f ≡ false) }
    {
        Ok(Lost {
            files: all_false(alloc, 65536)?,
            has_folder: false,
        })
    }

    /// Whether a sync of this file, or of a folder, has failed.
    pub(crate) fn has(&self, f: u16) -> bool
        ensures { result ≡ is_lost self.now f }
    {
        self.has_folder || self.files[f as usize]
    }

    /// Remembers a failed sync of a file.
    pub(crate) fn add(&mut self, f: u16)
        ensures added { is_lost self.new f ≡ true }
        ensures others { (g : ℕ) → g ≢ f → is_lost self.new g ≡ is_lost self.old g }
        ensures kept { KeepsLost self.old self.new }
    {
        self.files[f as usize] = true;
    }

    /// Remembers a failed sync of a folder.
    pub(crate) fn add_folder(&mut self)
        ensures added { (f : ℕ) → is_lost self.new f ≡ true }
        ensures kept { KeepsLost self.old self.new }
    {
        self.has_folder = true;
    }
}
