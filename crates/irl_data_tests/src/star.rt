use crate::helpers::{NOTHING_ASKED, same};
use irl_offer::{Purse, Settings};
use irl_star::Degrees;
use std::test::Fail;

// A domain, its degree and its budget by the default settings.
const DOMAINS: [(&[u8], u64, u32); 4] = [
    (b"b.test", 2, 10_000),
    (b"c.test", 2, 9_999),
    (b"a.test", 1, 9_998),
    (b"d.test", 0, 10),
];

#[test]
fn budgets_go_by_degree_and_then_by_text(rt: HostRuntime) -> Result<(), Fail> {
    let mut degrees = Degrees::new(rt.alloc());
    for pld in [b"c.test", b"b.test", b"a.test", b"b.test", b"c.test"] {
        degrees.add(pld)?;
    }
    let settings = Settings::of_new_store(&NOTHING_ASKED);
    assert!(rt; settings.is_valid());
    let budgets = degrees.budgets(&settings)?;
    for (pld, degree, budget) in DOMAINS {
        same(&rt, degrees.degree(pld) == degree, "degree");
        same(&rt, budgets.budget(pld) == budget, "budget");
    }
    Ok(())
}
