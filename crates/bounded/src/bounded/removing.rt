ghost use Rattle.std.specs.Prelude.{◌≡◌, slice_get, remove};
ghost use Rattle.bounded.specs.Items.{items};

use super::Bounded;

impl<T: Copy, const N: usize> Bounded<T, N> {
    // Takes the item of a place away, and gives it. The others stay in their order.
    pub fn remove(&mut self, place: usize) -> Option<T>
        ensures value { result ≡ slice_get (items self.old) place }
        ensures rest { items self.new ≡ remove (items self.old) place }
    {
        if place >= self.count {
            return None;
        }
        let item = self.places[place];
        self.places.copy_within(place + 1..self.count, place);
        self.count -= 1;
        Some(item)
    }
}
