use crate::answers::Call::{self, Cut, Length, Read, Sync, Write};
use crate::answers::answer;
use irl_files::{FileStore, Lockable};
use std::alloc::{AllocError, Global};
use std::fs::{self, Files};
use std::test::Fail;

const FOLDER: &str = "irl_file_store/deep/.//";

/// The answers of calls, each with a `;` behind it.
fn answers<R: Files + Drop>(
    store: &mut FileStore<R>,
    alloc: Global,
    calls: &[(u16, Call)],
) -> Result<String, AllocError>
where
    R::File: Lockable,
{
    let mut all = String::new(alloc);
    for (f, call) in calls {
        all.push_str(answer(store, alloc, *f, *call)?.as_str())?;
        all.push(';')?;
    }
    Ok(all)
}

/// What failed first in a store over a folder d.
fn told<R: Files + Drop>(store: &FileStore<R>, alloc: Global) -> Result<String, AllocError>
where
    R::File: Lockable,
{
    match store.first_failure() {
        Some(failure) => failure.explain(alloc, "d"),
        None => Ok(String::new(alloc)),
    }
}

/// In a folder that isn't there.
static FIRST: [(u16, Call); 4] = [(7, Length), (7, Read(0)), (7, Cut(0)), (7, Sync)];

const FIRST_TOLD: &str = "0;0 --------;done;done;";

static WRITES: [(u16, Call); 8] = [
    (7, Write(0, "abcd")),
    (7, Write(2, "xyz")),
    (998, Write(0, "other")),
    (7, Sync),
    (7, Length),
    (7, Read(1)),
    (7, Cut(3)),
    (7, Write(u64::MAX, "a")),
];

const WRITES_TOLD: &str = "done;done;done;done;5;4 bxyz----;done;failed;";

#[test]
fn a_folder_keeps_files(rt: HostRuntime) -> Result<(), Fail> {
    let _ = fs::remove_dir_all(&rt, "irl_file_store");
    let mut store = FileStore::new(&rt, rt.alloc(), FOLDER)?;
    assert_eq!(rt;
        answers(&mut store, rt.alloc(), &FIRST)?.as_str(),
        FIRST_TOLD
    );
    assert!(rt; !fs::exists(&rt, "irl_file_store")?);
    assert_eq!(rt;
        answers(&mut store, rt.alloc(), &WRITES)?.as_str(),
        WRITES_TOLD
    );
    let text = fs::read_to_string(&rt, "irl_file_store/deep/0007")?;
    assert_eq!(rt; text.as_str(), "abx");
    let other = fs::read_to_string(&rt, "irl_file_store/deep/0998")?;
    assert_eq!(rt; other.as_str(), "other");
    fs::remove_dir_all(&rt, "irl_file_store")?;
    Ok(())
}

#[test]
fn one_store_at_a_time_has_a_folder(rt: HostRuntime) -> Result<(), Fail> {
    let _ = fs::remove_dir_all(&rt, "irl_two_stores");
    let mut store = FileStore::new(&rt, rt.alloc(), "irl_two_stores")?;
    assert_eq!(rt;
        answers(&mut store, rt.alloc(), &[(7, Write(0, "abx"))])?.as_str(),
        "done;"
    );
    let mut second = FileStore::new(&rt, rt.alloc(), "irl_two_stores")?;
    assert_eq!(rt;
        answers(&mut second, rt.alloc(), &[(7, Length)])?.as_str(),
        "failed;"
    );
    assert_eq!(rt;
        told(&second, rt.alloc())?.as_str(),
        "d is in use by another program"
    );
    drop(store);
    assert_eq!(rt;
        answers(&mut second, rt.alloc(), &[(7, Read(0))])?.as_str(),
        "3 abx-----;"
    );
    fs::remove_dir_all(&rt, "irl_two_stores")?;
    Ok(())
}

#[test]
fn a_file_is_no_folder(rt: HostRuntime) -> Result<(), Fail> {
    fs::write(&rt, "irl_no_folder", "abx")?;
    let mut store = FileStore::new(&rt, rt.alloc(), "irl_no_folder")?;
    assert_eq!(rt;
        answers(&mut store, rt.alloc(), &[(1, Write(0, "a"))])?.as_str(),
        "failed;"
    );
    let told = told(&store, rt.alloc())?;
    assert_eq!(rt;
        told.as_str(),
        "write of d/0001: Not a directory (os error 20)"
    );
    fs::remove_file(&rt, "irl_no_folder")?;
    Ok(())
}
