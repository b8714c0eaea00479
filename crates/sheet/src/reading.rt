ghost use Rattle.std.specs.Prelude.{◌≡◌, ◌+◌, ◌<◌, ◌≤◌, ◌==◌, ◌++◌, length, take, drop, position};
ghost use Rattle.elimination.specs.Held.{used, row_at, lines_of};
ghost use Rattle.sheet.specs.Reading.{Within, alone, value_at, is_set_point, constant_at, solution_of};

use elimination::held::Held;
use exact::number::Number;
use exact::value::zero;
use ledger::entry::Entry;

// The place, from 0, of the held line that is solved for the set point u.
fn place_of(entries: &[Entry], u: usize) -> Option<usize>
    ensures answer { result ≡ position (λ e. e.subject == u) entries.now }
    ensures within { Within (length entries.now) result }
{
    entries.iter().position(|e| e.subject as usize == u)
}

// Whether a row is 0 in every column but u.
fn is_alone<K: Number>(row: &[K], u: usize) -> bool
    ensures { result ≡ alone K.kind u (length row.now) row.now }
{
    row.iter().enumerate().all(|(i, x)| i == u || x.is_zero())
}

// Whether q is one of n set points, counted from 1.
pub(crate) fn is_set_point(n: usize, q: usize) -> bool
    ensures { result ≡ is_set_point n q }
{
    (1..=n).contains(&q)
}

// The memory of a sheet, which is only read here, and the lines held in it.
#[derive(Drop)]
pub(crate) struct Rows<'a, K: Number> {
    pub(crate) memory: &'a [K],
    pub(crate) held: Held<'a>,
    ghost room: { used held.n ≤ length memory.now },
}

impl<K: Number> Rows<'_, K> {
    // The row of the held line at the place j: its set point columns and its constant.
    #[tactic(auto, using(crate::proofs::Rows::row_inside, crate::proofs::Rows::begun, crate::proofs::Rows::begun_length))]
    fn row(&self, j: usize) -> &[K]
        requires { j < length self.now.held.entries.now }
        ensures row { result.now ≡ take (self.now.held.n + 1) (row_at self.now.held.n self.now.memory.now j) }
        ensures length { length result.now ≡ self.now.held.n + 1 }
    {
        // By hand: the like of it in `Held` is private, as a public one would have to say what a place past n gives.
        let from = j * (2 * self.held.n + 1);
        &self.memory[from..from + self.held.n + 1]
    }

    // What the set point u is settled at.
    #[tactic(auto, using(crate::proofs::Rows::row_is, crate::proofs::Rows::row_inside, crate::proofs::Rows::number_in, crate::proofs::Rows::columns, crate::proofs::Rows::kept_if))]
    pub(crate) fn settled(&self, u: usize) -> Option<K>
        requires { u < self.now.held.n }
        ensures { result ≡ value_at K.kind self.now.held.n u (lines_of self.now.held self.now.memory.now) }
    {
        let row = self.row(place_of(self.held.entries, u)?);
        is_alone(&row[..self.held.n], u).then_some(row[self.held.n])
    }

    // The number of the set point u in the solution: the constant of its row, or 0.
    #[tactic(auto, using(crate::proofs::Rows::row_is, crate::proofs::Rows::row_inside, crate::proofs::Rows::number_in))]
    fn constant(&self, u: usize) -> K
        ensures { result ≡ constant_at K.kind self.now.held.n (lines_of self.now.held self.now.memory.now) u }
    {
        // The borrow checker does not cover `map_or_else(zero, ..)`, and with `map_or(zero(), ..)` the proof did not close.
        match place_of(self.held.entries, u) {
            Some(j) => self.row(j)[self.held.n],
            None => zero(),
        }
    }

    // Writes the solution over the first n numbers.
    pub(crate) fn write_solution(&self, numbers: &mut [K])
        requires { self.now.held.n ≤ length numbers.old }
        ensures { numbers.new ≡ solution_of K.kind self.now.held.n (lines_of self.now.held self.now.memory.now) ++ drop self.now.held.n numbers.old }
    {
        for (u, x) in numbers[..self.held.n].iter_mut().enumerate() {
            *x = self.constant(u);
        }
    }
}
