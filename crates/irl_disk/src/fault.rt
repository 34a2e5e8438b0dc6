ghost use Rattle.std.specs.Prelude.{◌≡◌};
ghost use Rattle.irl_base.specs.declared.fault.Fault.TheVariants.{Failed as FailedFault};

use crate::Failed;
use irl_base::Fault;

impl From<Failed> for Fault {
    ghost from_gives = { λ _ e. e ≡ FailedFault };

    fn from(_: Failed) -> Fault {
        Fault::Failed
    }
}
