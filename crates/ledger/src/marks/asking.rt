ghost use Rattle.std.specs.Prelude.{◌≡◌, [], length};
ghost use Rattle.ledger.specs.Marked.{marked};

use super::Marks;
use bounded::bounded::Bounded;

impl Marks {
    pub fn new() -> Marks
        ensures { marked result ≡ [] }
    {
        Marks {
            counts: Bounded::new(0),
        }
    }

    // How many trials are open.
    pub fn depth(&self) -> usize
        ensures { result ≡ length (marked self.now) }
    {
        self.counts.len()
    }
}
