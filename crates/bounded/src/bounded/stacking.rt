ghost use Rattle.std.specs.Prelude.{◌≡◌, ◌∷◌, ◌++◌, ◌<◌, ◌-◌, ◌↔◌, [], length, take, slice_get, IsOk, OnOk, OnErr};
ghost use Rattle.bounded.specs.Items.{items};

use super::{Bounded, Full};

impl<T: Copy, const N: usize> Bounded<T, N> {
    // Adds an item last, where a place is left.
    pub fn push(&mut self, item: T) -> Result<(), Full>
        ensures room { IsOk result ↔ (length (items self.old) < N) }
        ensures pushed { OnOk result (items self.new ≡ items self.old ++ item ∷ []) }
        ensures full { OnErr result (items self.new ≡ items self.old) }
    {
        if self.count == N {
            return Err(Full);
        }
        self.places[self.count] = item;
        self.count += 1;
        Ok(())
    }

    // Takes the last item away, and gives it.
    pub fn pop(&mut self) -> Option<T>
        ensures last { result ≡ slice_get (items self.old) (length (items self.old) - 1) }
        ensures rest { items self.new ≡ take (length (items self.old) - 1) (items self.old) }
    {
        if self.count == 0 {
            return None;
        }
        self.count -= 1;
        Some(self.places[self.count])
    }
}
