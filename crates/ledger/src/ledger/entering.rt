ghost use Rattle.std.specs.Prelude.{◌≡◌, is_ok, if◌then◌else◌};
ghost use Rattle.ledger.specs.Listed.{listed, holding, may_hold, hold_answer};

use super::Ledger;
use crate::entry::Entry;
use crate::fault::LedgerFault;

impl Ledger {
    // Enters a line last. Refused, and nothing entered, where there are n lines or the subject is no set point.
    pub fn hold(&mut self, label: u32, subject: usize) -> Result<(), LedgerFault>
        ensures answer { result ≡ hold_answer subject (listed self.old) }
        ensures asked { is_ok result ≡ may_hold subject (listed self.old) }
        ensures after { listed self.new ≡ (if is_ok result then holding label subject (listed self.old) else listed self.old) }
    {
        if self.entries.len() >= self.n {
            return Err(LedgerFault::NoPlace);
        }
        if subject >= self.n {
            return Err(LedgerFault::NoSetPoint);
        }
        self.entries.push(Entry {
            label,
            subject: subject as u8,
        })?;
        Ok(())
    }
}
