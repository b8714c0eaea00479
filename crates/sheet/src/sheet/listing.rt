ghost use Rattle.std.specs.Prelude.{◌≡◌, ℕ, ◌+◌, ◌/◌, ◌≤◌, true, length, Ok, Err, ◌≢◌};
ghost use Rattle.elimination.specs.declared.fault.StepFault.{StepFault as StepFaultOf};
ghost use Rattle.elimination.specs.declared.fault.SheetFault.TheVariants.{Numbers};
ghost use Rattle.rows.specs.Row.{done};
ghost use Rattle.sheet.specs.Contents.{contents};
ghost use Rattle.sheet.specs.Stored.{stored, with_contents};
ghost use Rattle.sheet.specs.Listing.{labels_fit, list_refusal, checking};
ghost use Rattle.sheet.specs.Lent.{SameRest, SameLender};

use super::Sheet;
use crate::fault::ListFault;
use elimination::fault::SheetFault;
use elimination::record::Record;
use elimination::stating::fitting;
use exact::number::Number;
use ledger::limits::LAST_LABEL;

const MOST_LINES: usize = 1_000;

// Whether the labels of so many lines, from `first` on, are in range. An empty list has none.
fn labels_fit(count: usize, first: u32) -> bool
    requires { count ≤ 1000 }
    ensures { result ≡ labels_fit count first }
{
    count == 0 || (first >= 1 && first as usize + count - 1 <= LAST_LABEL as usize)
}

// How many lines a list of `size` numbers has, or why it is refused as a whole.
fn pass_list(n: usize, size: usize, first: u32, room: usize) -> Result<usize, SheetFault>
    requires { n ≤ 48 }
    ensures answer { done result ≡ list_refusal n size first room }
    ensures count { (m : ℕ) → result ≡ Ok m → m ≡ size / (n + 1) }
{
    let width = n + 1;
    let count = size / width;
    if size % width != 0 || count > MOST_LINES {
        return Err(SheetFault::Length);
    }
    if room < width {
        return Err(SheetFault::Room);
    }
    if !labels_fit(count, first) {
        return Err(SheetFault::Label);
    }
    Ok(count)
}

impl<'a, K: Number> Sheet<'a, K> {
    // States the lines of a list in order, with labels that rise by one from `first`, and stops at the first line that is refused;
    // the lines before it stay held. Answers the index that the next line would have. A list that is refused as a whole changes nothing.
    pub fn check(
        &mut self,
        list: &[i32],
        first: u32,
        records: &mut [Record<K>],
    ) -> Result<usize, ListFault>
        ensures answer { result ≡ (checking K.kind (contents self.old) list.now first records.old).answer }
        ensures contents { contents self.new ≡ (checking K.kind (contents self.old) list.now first records.old).contents }
        ensures records { records.new ≡ (checking K.kind (contents self.old) list.now first records.old).records }
        ensures rest { SameRest self.old self.new }
        ensures lender { SameLender self.old self.new }
        // The open trials and the waits are as they were.
        ensures apart { stored self.new ≡ with_contents (stored self.old) (contents self.new) }
        ensures always { K.COMPLETE ≡ true → (i : ℕ) (f : StepFaultOf) → result ≢ Err (record { index = i; fault = Numbers f }) }
    {
        let n = fitting(&self.ledger, self.memory.len()).n;
        let count = pass_list(n, list.len(), first, records.len()).map_err(|fault| ListFault {
            index: 0,
            fault,
        })?;
        for (i, line) in list.chunks_exact(n + 1).enumerate() {
            self.state(line, first + i as u32, records)
                .map_err(|fault| ListFault {
                    index: i + 1,
                    fault,
                })?;
        }
        Ok(count + 1)
    }
}
