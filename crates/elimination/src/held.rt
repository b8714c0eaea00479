ghost use Rattle.std.specs.Prelude.{◌≡◌, ◌+◌, ◌<◌, ◌≤◌, length};

use ledger::entry::Entry;
use std::ops::Range;

// The set points and the entries of the held lines, as a ledger shows them over a memory. The lent memory stays beside it, and its room a
// clause: a fact of a type that held the memory would hide from the lender what stands there afterwards.
#[derive(Clone, Copy)]
pub struct Held<'a> {
    pub n: usize,
    pub entries: &'a [Entry],
    ghost few: { n ≤ 48 },
    ghost held: { length entries.now ≤ n },
}

// Where their numbers lie.
impl Held<'_> {
    ghost use Rattle.elimination.specs.Held.{wide, row_place, line_place};

    pub(crate) fn width(self) -> usize
        ensures { result ≡ wide self.entry.n }
    {
        2 * self.n + 1
    }

    pub(crate) fn row(self, place: usize) -> Range<usize>
        requires { place ≤ self.n }
        ensures start { result.start ≡ row_place self.entry.n place }
        ensures end { result.end ≡ row_place self.entry.n place + wide self.entry.n }
    {
        let at = place * self.width();
        at..at + self.width()
    }

    // The row of the line that is stated, after those of the held lines.
    pub(crate) fn working_row(self) -> Range<usize>
        ensures start { result.start ≡ row_place self.entry.n (length self.entry.entries.now) }
        ensures end { result.end ≡ row_place self.entry.n (length self.entry.entries.now) + wide self.entry.n }
    {
        self.row(self.entries.len())
    }

    pub(crate) fn line(self, place: usize) -> Range<usize>
        requires { place < self.n }
        ensures start { result.start ≡ line_place self.entry.n place }
        ensures end { result.end ≡ line_place self.entry.n place + (self.entry.n + 1) }
    {
        let at = (self.n + 1) * self.width() + place * (self.n + 1);
        at..at + (self.n + 1)
    }
}
