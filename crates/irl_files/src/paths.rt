ghost use Rattle.std.specs.Prelude.{◌≡◌, ◌+◌, ◌<◌, ◌∷◌, ◌++◌, IfOk, string_bytes};
ghost use Rattle.std.specs.Option.{option_copied, option_map};
ghost use Rattle.std.specs.Path.{path_parent};
ghost use Rattle.irl_files.specs.Folder.{four_digits, named_folder};

use std::alloc::{AllocError, Global};
use std::path::Path;

/// The path of a file.
pub(crate) fn path_of(alloc: Global, folder: &str, f: u16) -> Result<String, AllocError>
    requires { f < 10000 }
    ensures { IfOk result (λ path. string_bytes path ≡ folder.now ++ 47 ∷ four_digits f) }
{
    format!(in alloc; "{folder}/{f:04}")
}

/// The folder of this name; with no name the one that the program runs in.
pub(crate) fn named(name: &str) -> &str
    ensures { result.now ≡ named_folder name.now }
{
    if name.is_empty() { "." } else { name }
}

/// The folder that a folder lies in.
pub(crate) fn folder_above(folder: &str) -> Option<&str>
    ensures { option_copied result ≡ option_map named_folder (path_parent folder.now) }
{
    match Path::new(folder).parent() {
        Some(above) => Some(named(above.as_str())),
        None => None,
    }
}

/// A folder's path without what stands behind its name and names the same folder: `/`, and `/.`.
pub(crate) fn without_dots(path: &str) -> &str {
    let mut path = path.trim_end_matches('/');
    'dots: for _ in 0..path.len() {
        match path.strip_suffix("/.") {
            Some(front) => path = front.trim_end_matches('/'),
            None => break 'dots,
        }
    }
    path
}
