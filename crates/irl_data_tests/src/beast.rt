use crate::helpers::places;
use irl_beast::{Beast, Item};
use irl_offer::{Purse, Slot, Text};
use std::alloc::{AllocError, Global};
use std::test::Fail;

// One page a pass for each domain.
struct One;

impl Purse for One {
    ghost use Rattle.std.proofs.Common.{arith};

    ghost budgets = { λ _ _. 1 };

    ghost is_positive = { λ _ _. Prim.omega arith };

    fn budget(&self, _: &[u8]) -> u32 {
        1
    }
}

// So many items of one domain, with numbers from a first one.
fn items(alloc: Global, first: u64, count: u64) -> Result<Vec<Item>, AllocError> {
    let mut items = Vec::new(alloc);
    for number in first..first.saturating_add(count) {
        let pld = Text::from_bytes(alloc, b"a.test")?;
        items.push(Item { number, pld })?;
    }
    Ok(items)
}

fn numbers(alloc: Global, items: &[Item]) -> Result<Vec<u64>, AllocError> {
    let mut numbers = Vec::new(alloc);
    for item in items {
        numbers.push(item.number)?;
    }
    Ok(numbers)
}

// What a pass reads fresh, the places that it gives, and then the queues, the passes done, queue 1 and the last list.
struct Step {
    first: u64,
    count: u64,
    places: &'static [(u64, Slot)],
    queues: u32,
    passes: u32,
    first_queue: &'static [u64],
    last: &'static [u64],
}

const STEPS: [Step; 2] = [
    Step {
        first: 0,
        count: 5,
        places: &[
            (0, Slot::Front),
            (1, Slot::Queue(2)),
            (2, Slot::Last),
            (3, Slot::Last),
            (4, Slot::Last),
        ],
        queues: 2,
        passes: 1,
        first_queue: &[],
        last: &[2, 3, 4],
    },
    Step {
        first: 5,
        count: 0,
        places: &[(1, Slot::Front)],
        queues: 4,
        passes: 0,
        first_queue: &[2, 3, 4],
        last: &[],
    },
];

// Whether a pass is planned and made as a step says.
fn is_as_said(alloc: Global, beast: &mut Beast, step: &Step) -> Result<bool, AllocError> {
    let plan = beast.plan(&items(alloc, step.first, step.count)?, &One)?;
    let made = beast.pass(items(alloc, step.first, step.count)?, &One)?;
    let wanted = places(alloc, step.places)?;
    let queues = beast.queues();
    let queue = numbers(alloc, beast.queue(1))?;
    let last = numbers(alloc, beast.last())?;
    Ok(
        plan.places() == wanted.items()
            && made.as_slice() == wanted.items()
            && queue.as_slice() == step.first_queue
            && last.as_slice() == step.last
            && (queues, beast.passes()) == (step.queues, step.passes),
    )
}

#[test]
fn passes_postpone_what_is_past_the_budget(rt: HostRuntime) -> Result<(), Fail> {
    let mut beast = Beast::new(rt.alloc(), 2)?;
    for step in &STEPS {
        assert!(rt; is_as_said(rt.alloc(), &mut beast, step)?);
    }
    Ok(())
}
