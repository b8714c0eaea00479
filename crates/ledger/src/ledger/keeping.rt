ghost use Rattle.std.specs.Prelude.{◌≡◌};
ghost use Rattle.ledger.specs.Listed.{listed, empty};

use super::Ledger;
use crate::entry::Entry;
use crate::limits::MOST_SET_POINTS;
use bounded::bounded::Bounded;

impl Ledger {
    // A ledger with no entry. More than 48 set points are none.
    pub fn new(n: usize) -> Ledger
        ensures { listed result ≡ empty n }
    {
        let n = if n <= MOST_SET_POINTS { n } else { 0 };
        Ledger {
            n,
            entries: Bounded::new(Entry {
                label: 0,
                subject: 0,
            }),
        }
    }

    pub fn set_points(&self) -> usize
        ensures { result ≡ (listed self.now).n }
    {
        self.n
    }

    // The entries of the held lines, by place.
    pub fn entries(&self) -> &[Entry]
        ensures { result.now ≡ (listed self.now).entries }
    {
        self.entries.as_slice()
    }
}
