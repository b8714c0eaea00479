ghost use Rattle.std.specs.Prelude.{◌≡◌};
ghost use Rattle.sheet.specs.Stored.{stored};
ghost use Rattle.sheet.specs.Waits.{wait_answer, wait_after, drop_answer, drop_after};
ghost use Rattle.sheet.specs.Lent.{SameLender, SameMemory};

use super::Sheet;
use crate::fault::WaitFault;
use crate::reading::is_set_point;
use exact::number::Number;

impl<'a, K: Number> Sheet<'a, K> {
    // Waits for the set point q, counted from 1 and settled or not. Refused where a wait for it stands.
    #[tactic(auto, using(std::proofs::lemmas::Bool::Decides::nat_tests, crate::proofs::Asked::free), unfolding(crate::specs::Stored::stored, crate::specs::Contents::contents, crate::specs::Waits::wait_answer, crate::specs::Waits::wait_after))]
    pub fn wait(&mut self, q: usize) -> Result<(), WaitFault>
        ensures answer { result ≡ wait_answer (stored self.old) q }
        ensures stored { stored self.new ≡ wait_after (stored self.old) q }
        ensures memory { SameMemory self.old self.new }
        ensures lender { SameLender self.old self.new }
    {
        // `drop` begins with the same test: a function of its own, with its contract, would be longer than the two.
        if !is_set_point(self.set_points(), q) {
            return Err(WaitFault::SetPoint);
        }
        // No From: of the ledger's faults only this one is left, after the test above.
        self.waits.place(q).map_err(|_| WaitFault::Waiting)
    }

    // Takes the wait for the set point q back. Refused where none stands.
    #[tactic(auto, using(std::proofs::lemmas::Bool::Decides::nat_tests, crate::proofs::Asked::free), unfolding(crate::specs::Stored::stored, crate::specs::Contents::contents, crate::specs::Waits::drop_answer, crate::specs::Waits::drop_after))]
    pub fn drop(&mut self, q: usize) -> Result<(), WaitFault>
        ensures answer { result ≡ drop_answer (stored self.old) q }
        ensures stored { stored self.new ≡ drop_after (stored self.old) q }
        ensures memory { SameMemory self.old self.new }
        ensures lender { SameLender self.old self.new }
    {
        if !is_set_point(self.set_points(), q) {
            return Err(WaitFault::SetPoint);
        }
        self.waits.remove(q).map_err(|_| WaitFault::NotWaiting)
    }
}
