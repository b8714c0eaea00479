ghost use Rattle.std.specs.Prelude.{◌≡◌, ◌∷◌, is_ok, if◌then◌else◌};
ghost use Rattle.ledger.specs.Marked.{marked, may_push, push_answer, newest_of, older};

use super::Marks;
use crate::fault::LedgerFault;

impl Marks {
    // Marks that so many lines were held. Refused, and nothing marked, where eight trials are open.
    pub fn push(&mut self, held: usize) -> Result<(), LedgerFault>
        ensures answer { result ≡ push_answer (marked self.old) }
        ensures asked { is_ok result ≡ may_push (marked self.old) }
        ensures after { marked self.new ≡ (if is_ok result then held ∷ marked self.old else marked self.old) }
    {
        self.counts.push(held)?;
        Ok(())
    }

    // Takes the newest mark away, and tells it.
    #[tactic(auto, using(crate::proofs::Reversed::newest_last, crate::proofs::Reversed::older_rest), unfolding(crate::specs::Marked::marked))]
    pub fn pop(&mut self) -> Option<usize>
        ensures answer { result ≡ newest_of (marked self.old) }
        ensures after { marked self.new ≡ older (marked self.old) }
    {
        self.counts.pop()
    }
}
