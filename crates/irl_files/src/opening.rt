ghost use Rattle.std.specs.Prelude.{◌≡◌, ◌↔◌, IsTrue, false, true};
ghost use Rattle.std.specs.Fs.{asks_read, asks_write, asks_append, asks_truncate, asks_create, asks_create_new};
ghost use Rattle.irl_files.specs.declared.opening.Access.TheVariants.{Write};
ghost use Rattle.irl_files.specs.Lost.{KeepsLost};

use crate::hold::in_use;
use crate::paths::{folder_above, without_dots};
use crate::table::Table;
use std::fs::{self, OpenFile, OpenOptions};
use std::io::{self, ErrorKind};
use std::rt::Files;

/// What an open file may be used for.
#[derive(Clone, Copy, PartialEq, Eq)]
pub(crate) enum Access {
    /// To read and to sync.
    Read,
    /// To write too.
    Write,
}

/// How a file that is there is opened: with all that it has.
pub(crate) fn existing(access: Access) -> OpenOptions
    ensures reads { asks_read result ≡ true }
    ensures writes { IsTrue (asks_write result) ↔ (access ≡ Write) }
    ensures anywhere { asks_append result ≡ false }
    ensures whole { asks_truncate result ≡ false }
    ensures makes_none { (asks_create result ≡ false) × (asks_create_new result ≡ false) }
{
    let mut options = OpenOptions::new();
    options.read(true).write(access == Access::Write);
    options
}

/// How a file is made: to read and to write, and what is there stays.
pub(crate) fn new_file() -> OpenOptions
    ensures reads { asks_read result ≡ true }
    ensures writes { asks_write result ≡ true }
    ensures anywhere { asks_append result ≡ false }
    ensures whole { asks_truncate result ≡ false }
    ensures makes { (asks_create result ≡ true) × (asks_create_new result ≡ false) }
{
    let mut options = existing(Access::Write);
    options.create(true);
    options
}

/// Makes a folder that isn't there, and those that it lies in where they aren't. One that is there by now was made by another
/// program, which has it.
pub(crate) fn make_folder<R: Files>(
    rt: &R,
    files: &mut Table<R::File>,
    path: &str,
) -> io::Result<()>
    ensures { KeepsLost files.old.lost files.new.lost }
{
    let path = without_dots(path);
    'levels: for end in 1..path.len() {
        match path.split_at_checked(end) {
            Some((above, rest)) if rest.starts_with('/') => make_level(rt, files, above)?,
            _ => {}
        }
    }
    match make_last(rt, files, path) {
        Err(error) if error.kind() == ErrorKind::AlreadyExists => Err(in_use()),
        answer => answer,
    }
}

/// Makes a folder where it isn't there. Another program may make it at the same time.
fn make_level<R: Files>(rt: &R, files: &mut Table<R::File>, path: &str) -> io::Result<()>
    ensures { KeepsLost files.old.lost files.new.lost }
{
    if is_folder(rt, path) {
        return Ok(());
    }
    match make_last(rt, files, path) {
        Err(error) if error.kind() == ErrorKind::AlreadyExists && is_folder(rt, path) => Ok(()),
        answer => answer,
    }
}

/// Makes a folder, once the name of the one that it lies in lasts. So of the folders that a stopped process made only the
/// last one's name may be lost.
fn make_last<R: Files>(rt: &R, files: &mut Table<R::File>, path: &str) -> io::Result<()>
    ensures { KeepsLost files.old.lost files.new.lost }
{
    if let Some(above) = folder_above(path) {
        sync_name(rt, files, above)?;
    }
    fs::create_dir(rt, path)
}

/// Whether a path is that of a folder.
fn is_folder<R: Files>(rt: &R, path: &str) -> bool {
    match fs::metadata(rt, path) {
        Ok(metadata) => metadata.is_dir(),
        Err(_) => false,
    }
}

/// Makes a folder's own name last, unless the folder that it lies in may not be read.
pub(crate) fn sync_name<R: Files>(
    rt: &R,
    files: &mut Table<R::File>,
    folder: &str,
) -> io::Result<()>
    ensures { KeepsLost files.old.lost files.new.lost }
{
    let Some(above) = folder_above(folder) else {
        return Ok(());
    };
    match files.sync_folder(rt, above) {
        Err(error) if error.kind() == ErrorKind::PermissionDenied => Ok(()),
        answer => answer,
    }
}
