ghost use Rattle.std.specs.Prelude.{◌≡◌, []};
ghost use Rattle.ledger.specs.Waiting.{waiting, stands};

use super::Waits;
use crate::wait::Wait;
use bounded::bounded::Bounded;

impl Waits {
    pub fn new() -> Waits
        ensures { waiting result ≡ [] }
    {
        Waits {
            waits: Bounded::new(Wait { set_point: 0 }),
        }
    }

    // Whether a wait for the set point q stands.
    pub fn stands(&self, q: usize) -> bool
        ensures { result ≡ stands q (waiting self.now) }
    {
        self.waits
            .as_slice()
            .iter()
            .any(|wait| usize::from(wait.set_point) == q)
    }
}
