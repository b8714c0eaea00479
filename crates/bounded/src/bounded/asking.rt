ghost use Rattle.std.specs.Prelude.{◌≡◌, ◌≤◌, [], length, take};
ghost use Rattle.bounded.specs.Items.{items};

use super::Bounded;

impl<T: Copy, const N: usize> Bounded<T, N> {
    // An empty list. The filler stands in the places that hold no item.
    pub fn new(filler: T) -> Self
        ensures { items result ≡ [] }
    {
        Bounded {
            count: 0,
            places: [filler; N],
        }
    }

    // A list of the first `count` of these places, or of all where there are fewer.
    pub fn of(places: [T; N], count: usize) -> Self
        ensures { items result ≡ take count places }
    {
        Bounded {
            count: count.min(N),
            places,
        }
    }

    pub fn as_slice(&self) -> &[T]
        ensures items { result.now ≡ items self.now }
        ensures within { length (items self.now) ≤ N }
    {
        &self.places[..self.count]
    }

    pub fn len(&self) -> usize
        ensures count { result ≡ length (items self.now) }
        ensures within { result ≤ N }
    {
        self.count
    }
}
