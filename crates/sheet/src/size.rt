ghost use Rattle.std.specs.Prelude.{◌≡◌};
ghost use Rattle.sheet.specs.Contents.{measured};

use elimination::fault::SheetFault;
use ledger::limits::MOST_SET_POINTS;

// How many numbers a sheet of n set points needs. Refused where n is not 1 to 48, or `length` numbers are too few.
pub fn measure(n: usize, length: usize) -> Result<usize, SheetFault>
    ensures { result ≡ measured n length }
{
    if !(1..=MOST_SET_POINTS).contains(&n) {
        return Err(SheetFault::Size);
    }
    let needed = (n + 1) * (3 * n + 1);
    if length < needed {
        return Err(SheetFault::Size);
    }
    Ok(needed)
}
