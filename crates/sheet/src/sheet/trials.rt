ghost use Rattle.std.specs.Prelude.{◌≡◌};
ghost use Rattle.sheet.specs.Contents.{contents};
ghost use Rattle.sheet.specs.Stored.{stored};
ghost use Rattle.sheet.specs.Trials.{innermost, open_answer, open_after, closing, close_answer, keep_after, withdraw_after};
ghost use Rattle.sheet.specs.Lent.{SameRest, SameLender, SameMemory};

use super::Sheet;
use crate::fault::TrialFault;
use crate::trial::{HandedBack, Trial};
use elimination::restating::restate;
use elimination::stating::fitting;
use exact::number::Number;

impl<'a, K: Number> Sheet<'a, K> {
    // Opens a trial inside those that are open. Refused where eight are.
    #[tactic(auto, using(std::proofs::lemmas::Bool::Decides::nat_tests, crate::proofs::Stating::held_count), unfolding(crate::specs::Contents::contents, crate::specs::Stored::stored, crate::specs::Trials::open_answer, crate::specs::Trials::open_after))]
    pub fn open(&mut self) -> Result<Trial, TrialFault>
        ensures answer { result ≡ open_answer (stored self.old) }
        ensures stored { stored self.new ≡ open_after (stored self.old) }
        ensures memory { SameMemory self.old self.new }
        ensures lender { SameLender self.old self.new }
    {
        let held = fitting(&self.ledger, self.memory.len()).entries.len();
        // No From: of the ledger's faults `push` has only this one.
        self.marks.push(held).map_err(|_| TrialFault::Depth)?;
        Ok(Trial {
            number: self.number,
            depth: self.marks.depth(),
        })
    }

    // Closes the innermost trial; the lines held since it was opened stay. Any other trial is handed back.
    pub fn keep(&mut self, trial: Trial) -> Result<(), HandedBack>
        ensures answer { result ≡ close_answer (stored self.old) trial }
        ensures stored { stored self.new ≡ keep_after (stored self.old) trial }
        ensures memory { SameMemory self.old self.new }
        ensures lender { SameLender self.old self.new }
    {
        let _ = self.close(trial)?;
        Ok(())
    }

    // Closes the innermost trial, and leaves the lines that were held when it was opened: they are stated again, from none on. Any other
    // trial is handed back.
    #[tactic(auto, using(crate::proofs::Opened::refused_stays, crate::proofs::Opened::closed_is), unfolding(crate::specs::Contents::contents, crate::specs::Stored::stored))]
    pub fn withdraw(&mut self, trial: Trial) -> Result<(), HandedBack>
        ensures answer { result ≡ close_answer (stored self.old) trial }
        ensures stored { stored self.new ≡ withdraw_after (stored self.old) K.kind trial }
        ensures rest { SameRest self.old self.new }
        ensures lender { SameLender self.old self.new }
    {
        let held = self.close(trial)?;
        restate(&mut self.ledger, self.memory, held);
        Ok(())
    }

    // Closes the innermost trial, and tells how many lines were held when it was opened. Any other trial is handed back.
    #[tactic(auto, using(std::proofs::lemmas::Bool::Decides::nat_tests, crate::proofs::Opened::has_newest, crate::proofs::Opened::newest_some), unfolding(crate::specs::Contents::contents, crate::specs::Stored::stored, crate::specs::Trials::closing, crate::specs::Trials::keep_after))]
    fn close(&mut self, trial: Trial) -> Result<usize, HandedBack>
        ensures answer { result ≡ closing (stored self.old) trial }
        ensures stored { stored self.new ≡ keep_after (stored self.old) trial }
        ensures memory { SameMemory self.old self.new }
        ensures lender { SameLender self.old self.new }
    {
        if !self.is_innermost(&trial) {
            return Err(HandedBack {
                trial,
                fault: TrialFault::OtherTrial,
            });
        }
        let Trial {
            number: _,
            depth: _,
        } = trial;
        Ok(self.marks.pop().unwrap())
    }

    // Whether a trial is the one of this sheet that was opened last, of those that are open.
    #[tactic(auto, using(std::proofs::lemmas::Bool::Decides::nat_tests), unfolding(crate::specs::Stored::stored, crate::specs::Contents::contents))]
    fn is_innermost(&self, trial: &Trial) -> bool
        ensures { result ≡ innermost (stored self.now) trial.now }
    {
        let depth = self.marks.depth();
        depth > 0 && trial.number == self.number && trial.depth == depth
    }
}
