use super::{Waiting, settings_of};
use irl_disk::Store;
use irl_offer::{Fault, Verdict};
use std::alloc::Global;
use std::test::Fail;

// A bay of one bucket, over which a merge has entered key 1 in the cache, where key 2 is then put in its place. Keys 2 and
// 1 are offered after that, and judged: the verdicts on all three.
fn judged_anew(alloc: Global) -> Result<[Option<Verdict>; 3], Fault> {
    let mut kept = Waiting::made(alloc, None, &settings_of(1, 2, 1_000))?;
    kept.put(alloc, 1, b"a")?;
    kept.flush(0)?;
    kept.merge(0)?;
    kept.store.write(1_002, 0, b"\x02")?;
    kept.put(alloc, 2, b"a")?;
    kept.put(alloc, 1, b"a")?;
    kept.flush(0)?;
    kept.merge(0)?;
    let mut verdicts = [None; 3];
    for (i, verdict) in verdicts.iter_mut().enumerate() {
        if !kept.bay.is_sound() || i as u64 >= kept.bay.judged_len() {
            return Err(Fault::Memory);
        }
        *verdict = kept.bay.judged(&mut kept.store, i as u64)?.verdict;
    }
    Ok(verdicts)
}

// What a merge knows it has from the file, and from nothing that it remembers.
#[test]
fn keys_are_known_by_the_cache_file(rt: HostRuntime) -> Result<(), Fail> {
    let found = judged_anew(rt.alloc())?;
    let wanted = [
        Some(Verdict::Unique),
        Some(Verdict::Known(7)),
        Some(Verdict::Unique),
    ];
    assert!(rt; found == wanted, "{found:?}");
    Ok(())
}
