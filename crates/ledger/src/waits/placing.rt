ghost use Rattle.std.specs.Prelude.{◌≡◌, ◌==◌, is_ok, is_some, if◌then◌else◌, position};
ghost use Rattle.bounded.specs.Items.{items};
ghost use Rattle.ledger.specs.Waiting.{waiting, stands, may_wait, placed, without, place_answer, remove_answer};

use super::Waits;
use crate::fault::LedgerFault;
use crate::limits::MOST_SET_POINTS;
use crate::wait::Wait;

impl Waits {
    // Places a wait last. Refused, and nothing placed, where q is not 1 to 48 or a wait for it stands.
    pub fn place(&mut self, q: usize) -> Result<(), LedgerFault>
        ensures answer { result ≡ place_answer q (waiting self.old) }
        ensures asked { is_ok result ≡ may_wait q (waiting self.old) }
        ensures after { waiting self.new ≡ (if is_ok result then placed q (waiting self.old) else waiting self.old) }
    {
        if !(1..=MOST_SET_POINTS).contains(&q) {
            return Err(LedgerFault::NoSetPoint);
        }
        if self.stands(q) {
            return Err(LedgerFault::WaitStands);
        }
        self.waits.push(Wait { set_point: q as u8 })?;
        Ok(())
    }

    // Removes the wait for q; the others stay in their order. Refused, and nothing removed, where none stands.
    pub fn remove(&mut self, q: usize) -> Result<(), LedgerFault>
        ensures answer { result ≡ remove_answer q (waiting self.old) }
        ensures asked { is_ok result ≡ stands q (waiting self.old) }
        ensures after { waiting self.new ≡ (if is_ok result then without q (waiting self.old) else waiting self.old) }
    {
        let place = self.place_of(q).ok_or(LedgerFault::NoWait)?;
        self.waits.remove(place);
        Ok(())
    }

    // The place of the wait for q.
    fn place_of(&self, q: usize) -> Option<usize>
        ensures answer { result ≡ position (λ w. w.set_point == q) (items self.now.waits) }
        ensures found { is_some result ≡ stands q (waiting self.now) }
    {
        self.waits
            .as_slice()
            .iter()
            .position(|wait| usize::from(wait.set_point) == q)
    }
}
