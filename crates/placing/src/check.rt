ghost use Rattle.std.specs.Prelude.{◌≡◌, ℕ, ◌<◌, ◌≤◌, true, false, length};
ghost use Rattle.reading.specs.Terms.{at};
ghost use Rattle.placing.specs.Terms.{Checked, StoodBefore};

use crate::fault::TextFault;
use reading::term::Term;

// Whether one of the terms before has this number.
fn stood_before(before: &[Term], number: u32) -> bool
    ensures found { result ≡ true → StoodBefore before.now (length before.now) number }
    ensures absent { result ≡ false → StoodBefore before.now (length before.now) number → ⊥ }
{
    before.iter().any(|t| t.number == number)
}

// Refuses the leftmost term whose set point is none of the n, or stood before.
#[tactic(auto, using(crate::proofs::Before::stood))]
pub(crate) fn check_terms(terms: &[Term], n: usize) -> Result<(), TextFault>
    ensures { Checked terms.now n result }
{
    for (k, term) in terms.iter().enumerate() {
        if !(1..=n).contains(&(term.number as usize)) {
            return Err(TextFault::OutsideSetPoint { column: term.place });
        }
        if stood_before(&terms[..k], term.number) {
            return Err(TextFault::TwiceSetPoint { column: term.place });
        }
    }
    Ok(())
}
