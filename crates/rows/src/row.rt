ghost use Rattle.std.specs.Prelude.{◌≡◌, ℕ, true, false, cond, length, replicate, Result};
ghost use Rattle.exact.specs.declared.fault.NumberFault.{NumberFault};
ghost use Rattle.rows.specs.Row.{at, Gives, Keeps, Does, done, Leaves, swept, whole_op, over_op, whole_row, less_row, less_swept, over_row, cleared, clear_swept, highest};

use crate::fault::RowFault;
use exact::fault::NumberFault;
use exact::number::Number;

// Writes one value into each column. Not by `w.fill(v)`: that asks that a clone doesn't fail, which no law says of a type parameter that is Copy.
pub fn fill<K: Number>(w: &mut [K], v: K)
    ensures { w.new ≡ replicate (length w.old) v }
{
    w.fill_with(|| v);
}

// Puts what `op` gives of a column and the number there into each column, up to the first fault.
fn sweep<K: Number, F: Fn(usize, K) -> Result<K, NumberFault>>(
    w: &mut [K],
    op: F,
) -> Result<(), RowFault>
    requires callable { F.IsAlwaysCallable op }
    ensures { (step : ℕ → K → Result K NumberFault) → Gives (F.post op) step → Does step w.old result w.new }
{
    for (i, x) in w.iter_mut().enumerate() {
        *x = op(i, *x).map_err(|fault| RowFault {
            column: i + 1,
            fault,
        })?;
    }
    Ok(())
}

// The same of an operation that leaves each column from `count` on as it is: those are not gone over.
fn sweep_first<K: Number, F: Fn(usize, K) -> Result<K, NumberFault>>(
    w: &mut [K],
    count: usize,
    op: F,
) -> Result<(), RowFault>
    requires callable { F.IsAlwaysCallable op }
    ensures { (step : ℕ → K → Result K NumberFault) → Gives (F.post op) step → Keeps count step → Does step w.old result w.new }
{
    let end = count.min(w.len());
    sweep(&mut w[..end], op)
}

// Writes the values of whole numbers over a row, as far as both go.
pub fn load<K: Number>(w: &mut [K], numbers: &[i32]) -> Result<(), RowFault>
    ensures answer { result ≡ done (whole_row K.kind numbers.now w.old) }
    ensures made { Leaves (whole_row K.kind numbers.now w.old) w.new }
    ensures left { w.new ≡ swept (whole_op K.kind numbers.now) 0 w.old }
    ensures always { K.COMPLETE ≡ true → result ≡ Ok tt }
{
    sweep_first(w, numbers.len(), |i, x| match numbers.get(i) {
        Some(&a) => K::whole(a),
        None => Ok(x),
    })
}

// Whether f times the row `by` can be taken from the row w, as far as both go.
// It reads only: a write must not begin before all of it is known to go.
pub fn would_subtract<K: Number>(w: &[K], f: K, by: &[K]) -> Result<(), RowFault>
    ensures answer { result ≡ done (less_row K.kind f w.now by.now) }
    ensures always { K.COMPLETE ≡ true → result ≡ Ok tt }
{
    for (i, (x, y)) in w.iter().zip(by).enumerate() {
        x.less_times(f, *y).map_err(|fault| RowFault {
            column: i + 1,
            fault,
        })?;
    }
    Ok(())
}

// Takes f times the row `by` from the row w, as far as both go.
pub fn subtract<K: Number>(w: &mut [K], f: K, by: &[K]) -> Result<(), RowFault>
    ensures answer { result ≡ done (less_row K.kind f w.old by.now) }
    ensures made { Leaves (less_row K.kind f w.old by.now) w.new }
    ensures left { w.new ≡ less_swept K.kind f w.old by.now }
    ensures always { K.COMPLETE ≡ true → result ≡ Ok tt }
{
    sweep_first(w, by.len(), |i, x| match by.get(i) {
        Some(&y) => x.less_times(f, y),
        None => Ok(x),
    })
}

// Divides the row w by f.
pub fn divide<K: Number>(w: &mut [K], f: K) -> Result<(), RowFault>
    ensures answer { result ≡ done (over_row K.kind f w.old) }
    ensures made { Leaves (over_row K.kind f w.old) w.new }
    ensures left { w.new ≡ swept (over_op K.kind f) 0 w.old }
    ensures always { K.COMPLETE ≡ true → K.kind.is_zero f ≡ false → result ≡ Ok tt }
{
    sweep(w, |_, x| x.quotient(f))
}

// The number in the column s of the row w, unless it is 0.
fn nonzero_at<K: Number>(w: &[K], s: usize) -> Option<K>
    ensures { result ≡ cond (K.kind.is_zero (at K.kind w.now s)) None (Some (at K.kind w.now s)) }
{
    w.get(s).copied().filter(|f| !f.is_zero())
}

// Whether the column s of the row w can be made 0, by a row that is 1 there.
// It reads only: a write must not begin before all of it is known to go.
pub fn would_clear_column<K: Number>(w: &[K], s: usize, by: &[K]) -> Result<(), RowFault>
    ensures answer { result ≡ done (cleared K.kind s w.now by.now) }
    ensures always { K.COMPLETE ≡ true → result ≡ Ok tt }
{
    match nonzero_at(w, s) {
        Some(f) => would_subtract(w, f, by),
        None => Ok(()),
    }
}

// Makes the column s of the row w 0, by a row that is 1 there.
pub fn clear_column<K: Number>(w: &mut [K], s: usize, by: &[K]) -> Result<(), RowFault>
    ensures answer { result ≡ done (cleared K.kind s w.old by.now) }
    ensures made { Leaves (cleared K.kind s w.old by.now) w.new }
    ensures left { w.new ≡ clear_swept K.kind s w.old by.now }
    ensures always { K.COMPLETE ≡ true → result ≡ Ok tt }
{
    match nonzero_at(w, s) {
        Some(f) => subtract(w, f, by),
        None => Ok(()),
    }
}

// The highest column that is not 0.
pub fn highest_nonzero<K: Number>(w: &[K]) -> Option<usize>
    ensures { result ≡ highest K.kind (length w.now) w.now }
{
    w.iter().rposition(|x| !x.is_zero())
}
