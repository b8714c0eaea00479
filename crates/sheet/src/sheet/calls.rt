ghost use Rattle.std.specs.Prelude.{◌≡◌, true, length, Err, ◌≢◌};
ghost use Rattle.elimination.specs.Stating.{records_after};
ghost use Rattle.elimination.specs.declared.fault.StepFault.{StepFault as StepFaultOf};
ghost use Rattle.elimination.specs.declared.fault.SheetFault.TheVariants.{Numbers};
ghost use Rattle.sheet.specs.Contents.{contents, fresh, verdict, stated, after};
ghost use Rattle.sheet.specs.Stored.{stored, unopened, with_contents};
ghost use Rattle.sheet.specs.Reading.{settled_answer, solution_answer, solution_after};
ghost use Rattle.sheet.specs.Lent.{SameRest, SameLender};

use super::Sheet;
use crate::answer::Stated;
use crate::reading::{Rows, is_set_point};
use elimination::fault::SheetFault;
use elimination::record::Record;
use elimination::stating::{fitting, state_line};
use exact::number::Number;
use ledger::ledger::Ledger;
use ledger::marks::Marks;
use ledger::waits::Waits;

impl<'a, K: Number> Sheet<'a, K> {
    // Never refuses: where n or the memory would not measure up, the sheet has no set point.
    #[tactic(auto, using(crate::proofs::Made::size_is, crate::proofs::Made::nothing_held), unfolding(crate::specs::Contents::contents, crate::specs::Stored::stored))]
    pub fn make(n: usize, number: u16, memory: &'a mut [K]) -> Sheet<'a, K>
        ensures contents { contents result ≡ fresh n number (length memory.old) }
        ensures stored { stored result ≡ unopened (contents result) }
        ensures memory { result.memory.now ≡ memory.old }
        ensures lender { result.memory.ghost_name ≡ memory.entry.ghost_name }
    {
        Sheet {
            number,
            ledger: Ledger::new(n),
            marks: Marks::new(),
            waits: Waits::new(),
            memory,
        }
    }

    #[tactic(auto, unfolding(crate::specs::Contents::contents))]
    pub fn set_points(&self) -> usize
        ensures { result ≡ (contents self.now).n }
    {
        fitting(&self.ledger, self.memory.len()).n
    }

    // States a line: it is held, follows, or is refused. A clash writes its evidence over the first records.
    pub fn state(
        &mut self,
        line: &[i32],
        label: u32,
        records: &mut [Record<K>],
    ) -> Result<Stated, SheetFault>
        ensures answer { result ≡ stated (contents self.old) (verdict K.kind (contents self.old) line.now label (length records.old)) }
        ensures contents { contents self.new ≡ after (contents self.old) (verdict K.kind (contents self.old) line.now label (length records.old)) }
        ensures records { records.new ≡ records_after (verdict K.kind (contents self.old) line.now label (length records.old)) records.old }
        ensures rest { SameRest self.old self.new }
        ensures lender { SameLender self.old self.new }
        // The open trials and the waits are as they were.
        ensures apart { stored self.new ≡ with_contents (stored self.old) (contents self.new) }
        ensures always { K.COMPLETE ≡ true → (f : StepFaultOf) → result ≢ Err (Numbers f) }
    {
        let place = fitting(&self.ledger, self.memory.len()).entries.len() + 1;
        match state_line(&self.ledger, self.memory, line, label, records)? {
            None => Ok(Stated::Follows),
            Some(subject) => {
                self.ledger.hold(label, subject).unwrap();
                Ok(Stated::Held { place })
            }
        }
    }

    // The value of the set point q, counted from 1, if it has just one.
    #[tactic(auto, using(std::proofs::lemmas::Bool::Decides::nat_tests), unfolding(crate::specs::Contents::contents, elimination::specs::Held::held_in, crate::specs::Reading::settled_answer))]
    pub fn settled(&self, q: usize) -> Result<Option<K>, SheetFault>
        ensures { result ≡ settled_answer K.kind (contents self.now) q }
    {
        let memory: &[K] = &*self.memory;
        let held = fitting(&self.ledger, memory.len());
        if !is_set_point(held.n, q) {
            return Err(SheetFault::SetPoint);
        }
        Ok(Rows { memory, held }.settled(q - 1))
    }

    // Writes one solution of the held lines: a number for each set point, over the first n.
    #[tactic(auto, using(std::proofs::lemmas::Bool::Decides::nat_tests), unfolding(crate::specs::Contents::contents, elimination::specs::Held::held_in, crate::specs::Reading::solution_answer, crate::specs::Reading::solution_after))]
    pub fn solution(&self, numbers: &mut [K]) -> Result<(), SheetFault>
        ensures answer { result ≡ solution_answer (contents self.now) (length numbers.old) }
        ensures numbers { numbers.new ≡ solution_after K.kind (contents self.now) numbers.old }
    {
        let memory: &[K] = &*self.memory;
        let held = fitting(&self.ledger, memory.len());
        if numbers.len() < held.n {
            return Err(SheetFault::Room);
        }
        Rows { memory, held }.write_solution(numbers);
        Ok(())
    }
}
