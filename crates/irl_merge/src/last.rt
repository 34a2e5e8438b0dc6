ghost use Rattle.std.specs.Prelude.{◌≡◌, ◌++◌, List, Some, OnOk};
ghost use Rattle.std.specs.FinMap.{get, insert};
ghost use Rattle.irl_offer.specs.declared.receipt.Pair.{Pair};
ghost use Rattle.irl_model.specs.Book.{IsPrefixOf};
ghost use Rattle.irl_model.specs.Judging.{KeyMap};
ghost use Rattle.irl_merge.specs.Pairs.{HasGiven, IsUpTo};

use irl_offer::Pair;
use std::alloc::AllocError;

/// The value of a key that isn't below the last one of a set.
pub fn last_value(last: &Option<Pair>, key: u64) -> Option<u64>
    ensures { (keys : KeyMap) (given : List Pair) →
        HasGiven keys given last.now → IsUpTo last.now key → result ≡ get keys key }
{
    match *last {
        Some(pair) if pair.key == key => Some(pair.value),
        _ => None,
    }
}

/// Sets the value of such a key, which is then the last. The one before it, if it is another, is given out.
pub fn set_last(last: &mut Option<Pair>, pair: Pair, out: &mut Vec<Pair>) -> Result<(), AllocError>
    ensures given { OnOk result ((keys : KeyMap) (given more : List Pair) → out.new.items ≡ out.old.items ++ more →
        HasGiven keys given last.old → IsUpTo last.old pair.key →
        HasGiven (insert keys pair.key pair.value) (given ++ more) last.new) }
    ensures last { OnOk result (last.new ≡ Some pair) }
    ensures kept { IsPrefixOf out.old.items out.new.items }
{
    if let Some(before) = *last {
        if before.key != pair.key {
            out.push(before)?;
        }
    }
    *last = Some(pair);
    Ok(())
}
