mod stand_in;

use self::stand_in::{Fault, OnSystem, System};
use crate::answers::Call::{self, Cut, Length, Read, Sync, Write};
use crate::answers::answer;
use irl_files::FileStore;
use std::alloc::Global;
use std::io;
use std::test::Fail;

/// What a store over the stand-in is to do.
struct Case {
    folder: &'static str,
    /// What is there, as paths with bytes, or with none for a folder.
    there: &'static [(&'static str, Option<&'static str>)],
    most_open: usize,
    faults: &'static [Fault],
    calls: &'static [(u16, Call)],
    /// What reaches the system, with each call's answer behind it.
    log: &'static str,
}

const CASES: [Case; 16] = [
    // Bytes at places; a file that isn't there is empty, and a refused write reaches nothing.
    Case {
        folder: "d",
        there: &[(".", None), ("d", None)],
        most_open: 10,
        faults: &[],
        calls: &[
            (7, Length),
            (7, Read(0)),
            (7, Cut(0)),
            (7, Sync),
            (7, Write(0, "abcd")),
            (7, Write(2, "xyz")),
            (998, Write(0, "other")),
            (7, Sync),
            (7, Length),
            (7, Read(1)),
            (7, Cut(3)),
            (7, Read(0)),
            (7, Write(u64::MAX, "a")),
            (7, Sync),
            (8, Write(0, "new")),
            (8, Sync),
        ],
        log: "\
            open d\n\
            lock d\n\
            open d/0007\n\
            - 0\n\
            open d/0007\n\
            - 0 --------\n\
            open to write d/0007\n\
            - done\n\
            open d/0007\n\
            - done\n\
            open to write d/0007\n\
            make d/0007\n\
            write d/0007 at 0: abcd\n\
            - done\n\
            write d/0007 at 2: xyz\n\
            - done\n\
            open to write d/0998\n\
            make d/0998\n\
            write d/0998 at 0: other\n\
            - done\n\
            sync d/0007\n\
            open d\n\
            sync d\n\
            close d\n\
            open .\n\
            sync .\n\
            close .\n\
            - done\n\
            - 5\n\
            - 4 bxyz----\n\
            cut d/0007 to 3\n\
            - done\n\
            - 3 abx-----\n\
            - failed\n\
            sync d/0007\n\
            - done\n\
            open to write d/0008\n\
            make d/0008\n\
            write d/0008 at 0: new\n\
            - done\n\
            sync d/0008\n\
            open d\n\
            sync d\n\
            close d\n\
            open .\n\
            sync .\n\
            close .\n\
            - done\n\
        ",
    },
    // A folder that isn't there is looked for once, and has no files. It is made once the name of the one that it lies in lasts.
    Case {
        folder: "a/b/c",
        there: &[(".", None)],
        most_open: 10,
        faults: &[],
        calls: &[(7, Length), (8, Sync), (7, Write(0, "x")), (7, Sync)],
        log: "\
            open a/b/c\n\
            - 0\n\
            - done\n\
            open .\n\
            sync .\n\
            close .\n\
            make folder a\n\
            open .\n\
            sync .\n\
            close .\n\
            make folder a/b\n\
            open a\n\
            sync a\n\
            close a\n\
            make folder a/b/c\n\
            open a/b/c\n\
            lock a/b/c\n\
            make a/b/c/0007\n\
            write a/b/c/0007 at 0: x\n\
            - done\n\
            sync a/b/c/0007\n\
            open a/b/c\n\
            sync a/b/c\n\
            close a/b/c\n\
            open a/b\n\
            sync a/b\n\
            close a/b\n\
            - done\n\
        ",
    },
    // So is one in a folder that a stopped process made.
    Case {
        folder: "a/b",
        there: &[(".", None), ("a", None)],
        most_open: 10,
        faults: &[],
        calls: &[(7, Write(0, "x"))],
        log: "\
            open a/b\n\
            open .\n\
            sync .\n\
            close .\n\
            make folder a/b\n\
            open a/b\n\
            lock a/b\n\
            make a/b/0007\n\
            write a/b/0007 at 0: x\n\
            - done\n\
        ",
    },
    // A system that syncs and locks no folders.
    Case {
        folder: "d",
        there: &[(".", None), ("d", None), ("d/0007", Some("abc"))],
        most_open: 10,
        faults: &[
            Fault {
                call: "lock d",
                number: 95,
            },
            Fault {
                call: "sync d",
                number: 95,
            },
            Fault {
                call: "sync .",
                number: 22,
            },
        ],
        calls: &[(7, Sync), (7, Sync)],
        log: "\
            open d\n\
            lock d\n\
            open d/0007\n\
            sync read-only d/0007\n\
            open d\n\
            sync d\n\
            close d\n\
            open .\n\
            sync .\n\
            close .\n\
            - done\n\
            sync read-only d/0007\n\
            - done\n\
        ",
    },
    // The folder above may not be read.
    Case {
        folder: "d",
        there: &[(".", None), ("d", None), ("d/0007", Some("abc"))],
        most_open: 10,
        faults: &[Fault {
            call: "open .",
            number: 13,
        }],
        calls: &[(7, Sync), (7, Sync)],
        log: "\
            open d\n\
            lock d\n\
            open d/0007\n\
            sync read-only d/0007\n\
            open d\n\
            sync d\n\
            close d\n\
            open .\n\
            - done\n\
            sync read-only d/0007\n\
            - done\n\
        ",
    },
    // A failed sync of the folder is remembered for each file.
    Case {
        folder: "d",
        there: &[(".", None), ("d", None), ("d/0007", Some("abc"))],
        most_open: 10,
        faults: &[Fault {
            call: "sync d",
            number: 5,
        }],
        calls: &[(7, Sync), (8, Sync), (7, Read(0))],
        log: "\
            open d\n\
            lock d\n\
            open d/0007\n\
            sync read-only d/0007\n\
            open d\n\
            sync d\n\
            close d\n\
            - failed\n\
            - failed\n\
            - 3 abc-----\n\
        ",
    },
    // A failed sync of a file is remembered for that file.
    Case {
        folder: "d",
        there: &[(".", None), ("d", None)],
        most_open: 10,
        faults: &[Fault {
            call: "sync d/0007",
            number: 5,
        }],
        calls: &[
            (7, Write(0, "x")),
            (8, Write(0, "y")),
            (7, Sync),
            (7, Sync),
            (7, Write(1, "z")),
            (7, Sync),
            (8, Sync),
        ],
        log: "\
            open d\n\
            lock d\n\
            open to write d/0007\n\
            make d/0007\n\
            write d/0007 at 0: x\n\
            - done\n\
            open to write d/0008\n\
            make d/0008\n\
            write d/0008 at 0: y\n\
            - done\n\
            sync d/0007\n\
            - failed\n\
            - failed\n\
            write d/0007 at 1: z\n\
            - done\n\
            - failed\n\
            sync d/0008\n\
            open d\n\
            sync d\n\
            close d\n\
            open .\n\
            sync .\n\
            close .\n\
            - done\n\
        ",
    },
    // A folder that may only be read.
    Case {
        folder: "d",
        there: &[(".", None), ("d", None), ("d/0007", Some("abc"))],
        most_open: 10,
        faults: &[Fault {
            call: "open to write d/0007",
            number: 30,
        }],
        calls: &[
            (7, Length),
            (7, Read(0)),
            (7, Write(0, "x")),
            (7, Cut(1)),
            (7, Read(1)),
        ],
        log: "\
            open d\n\
            lock d\n\
            open d/0007\n\
            - 3\n\
            - 3 abc-----\n\
            open to write d/0007\n\
            - failed\n\
            open to write d/0007\n\
            - failed\n\
            - 2 bc------\n\
        ",
    },
    // A system that syncs only what is open for writing.
    Case {
        folder: "d",
        there: &[(".", None), ("d", None), ("d/0007", Some("abc"))],
        most_open: 10,
        faults: &[Fault {
            call: "sync read-only d/0007",
            number: 9,
        }],
        calls: &[(7, Sync)],
        log: "\
            open d\n\
            lock d\n\
            open d/0007\n\
            sync read-only d/0007\n\
            open to write d/0007\n\
            close d/0007\n\
            sync d/0007\n\
            open d\n\
            sync d\n\
            close d\n\
            open .\n\
            sync .\n\
            close .\n\
            - done\n\
        ",
    },
    // No more open files: the one that was used longest ago is synced and closed.
    Case {
        folder: "d",
        there: &[
            (".", None),
            ("d", None),
            ("d/0001", Some("a")),
            ("d/0002", Some("b")),
            ("d/0003", Some("c")),
        ],
        most_open: 3,
        faults: &[],
        calls: &[
            (1, Write(0, "x")),
            (2, Read(0)),
            (1, Length),
            (3, Read(0)),
            (2, Read(0)),
            (1, Sync),
        ],
        log: "\
            open d\n\
            lock d\n\
            open to write d/0001\n\
            write d/0001 at 0: x\n\
            - done\n\
            open d/0002\n\
            - 1 b-------\n\
            - 1\n\
            open d/0003\n\
            close d/0002\n\
            open d/0003\n\
            - 1 c-------\n\
            open d/0002\n\
            sync d/0001\n\
            close d/0001\n\
            open d/0002\n\
            - 1 b-------\n\
            open d/0001\n\
            close d/0003\n\
            open d/0001\n\
            sync read-only d/0001\n\
            open d\n\
            close d/0002\n\
            open d\n\
            sync d\n\
            close d\n\
            open .\n\
            sync .\n\
            close .\n\
            - done\n\
        ",
    },
    // So is one that was cut, and a sync that fails there is remembered.
    Case {
        folder: "d",
        there: &[
            (".", None),
            ("d", None),
            ("d/0001", Some("a")),
            ("d/0002", Some("b")),
        ],
        most_open: 2,
        faults: &[Fault {
            call: "sync d/0001",
            number: 5,
        }],
        calls: &[(1, Cut(0)), (2, Read(0)), (1, Sync)],
        log: "\
            open d\n\
            lock d\n\
            open to write d/0001\n\
            cut d/0001 to 0\n\
            - done\n\
            open d/0002\n\
            sync d/0001\n\
            close d/0001\n\
            open d/0002\n\
            - 1 b-------\n\
            - failed\n\
        ",
    },
    // None for the whole system, and none that this process could close.
    Case {
        folder: "d",
        there: &[(".", None), ("d", None), ("d/0001", Some("a"))],
        most_open: 10,
        faults: &[Fault {
            call: "open d/0002",
            number: 23,
        }],
        calls: &[(1, Write(0, "x")), (2, Read(0))],
        log: "\
            open d\n\
            lock d\n\
            open to write d/0001\n\
            write d/0001 at 0: x\n\
            - done\n\
            open d/0002\n\
            sync d/0001\n\
            close d/0001\n\
            open d/0002\n\
            - failed\n\
        ",
    },
    // No open file at all.
    Case {
        folder: "d",
        there: &[(".", None), ("d", None), ("d/0007", Some("abc"))],
        most_open: 0,
        faults: &[],
        calls: &[(7, Length)],
        log: "\
            open d\n\
            - failed\n\
        ",
    },
    // Another program has the folder.
    Case {
        folder: "d",
        there: &[(".", None), ("d", None), ("d/0007", Some("abc"))],
        most_open: 10,
        faults: &[Fault {
            call: "lock d",
            number: 11,
        }],
        calls: &[(7, Length), (8, Write(0, "x"))],
        log: "\
            open d\n\
            lock d\n\
            close d\n\
            - failed\n\
            open d\n\
            lock d\n\
            close d\n\
            - failed\n\
        ",
    },
    // Another program makes the folder between the first look and the first write.
    Case {
        folder: "d",
        there: &[(".", None)],
        most_open: 10,
        faults: &[Fault {
            call: "make folder d",
            number: 17,
        }],
        calls: &[(7, Read(0)), (7, Write(0, "x")), (7, Read(0))],
        log: "\
            open d\n\
            - 0 --------\n\
            open .\n\
            sync .\n\
            close .\n\
            make folder d\n\
            - failed\n\
            - 0 --------\n\
        ",
    },
    // A length that is known stays right where a write or a cut fails, and where one reaches behind it.
    Case {
        folder: "d",
        there: &[(".", None), ("d", None), ("d/0007", Some("abc"))],
        most_open: 10,
        faults: &[
            Fault {
                call: "write d/0007 at 3: xyz",
                number: 28,
            },
            Fault {
                call: "cut d/0007 to 9",
                number: 28,
            },
        ],
        calls: &[
            (7, Length),
            (7, Write(3, "xyz")),
            (7, Length),
            (7, Write(2, "wxyz")),
            (7, Length),
            (7, Write(0, "v")),
            (7, Cut(9)),
            (7, Length),
            (7, Cut(1)),
            (7, Length),
            (7, Write(3, "e")),
            (7, Length),
        ],
        log: "\
            open d\n\
            lock d\n\
            open d/0007\n\
            - 3\n\
            open to write d/0007\n\
            close d/0007\n\
            write d/0007 at 3: xyz\n\
            - failed\n\
            - 3\n\
            write d/0007 at 2: wxyz\n\
            - done\n\
            - 6\n\
            write d/0007 at 0: v\n\
            - done\n\
            cut d/0007 to 9\n\
            - failed\n\
            - 6\n\
            cut d/0007 to 1\n\
            - done\n\
            - 1\n\
            write d/0007 at 3: e\n\
            - done\n\
            - 4\n\
        ",
    },
];

/// What reaches the system.
fn log_of(alloc: Global, case: &Case) -> io::Result<String> {
    let system = System::new(alloc, case.most_open, case.faults)?;
    for (path, bytes) in case.there {
        system.put(path, *bytes)?;
    }
    let mut store = FileStore::new(OnSystem(&system), alloc, case.folder)?;
    for (f, call) in case.calls {
        let told = answer(&mut store, alloc, *f, *call)?;
        system.note("- ", told.as_str())?;
    }
    system.log()
}

#[test]
fn calls_reach_the_system_in_order(rt: HostRuntime) -> Result<(), Fail> {
    for case in &CASES {
        assert_eq!(rt; log_of(rt.alloc(), case)?.as_str(), case.log);
    }
    Ok(())
}
