ghost use Rattle.std.specs.Prelude.{◌≡◌};
ghost use Rattle.ledger.specs.declared.fault.LedgerFault.TheVariants.{NoPlace};

use bounded::bounded::Full;

// Why a ledger, its marks or its waits take nothing.
#[derive(Clone, Copy, PartialEq, Eq, Debug)]
pub enum LedgerFault {
    // Every place is taken.
    NoPlace,
    // The number is no set point.
    NoSetPoint,
    // A wait for the set point stands already.
    WaitStands,
    // No wait for it stands.
    NoWait,
}

impl From<Full> for LedgerFault {
    ghost from_gives = { λ full fault. fault ≡ NoPlace };

    fn from(_full: Full) -> LedgerFault {
        LedgerFault::NoPlace
    }
}
