ghost use Rattle.std.specs.Prelude.{◌≡◌, true, Ok};
ghost use Rattle.rows.specs.Row.{done, less_row, cleared, less_swept, clear_swept};
ghost use Rattle.rows.specs.Table.{row_of, with_row};

use crate::fault::RowFault;
use exact::number::Number;

// Rows of one width lie one after the other in a table. A row past the table's end has no columns.
// Where two rows are known to be apart, `row::subtract` and `row::clear_column` take them lent.

// Takes f times the row `by` from the row w of a table.
pub fn subtract_row<K: Number>(
    table: &mut [K],
    width: usize,
    w: usize,
    f: K,
    by: usize,
) -> Result<(), RowFault>
    ensures answer { result ≡ done (less_row K.kind f (row_of width table.old w) (row_of width table.old by)) }
    ensures after { table.new ≡ with_row width table.old w (less_swept K.kind f (row_of width table.old w) (row_of width table.old by)) }
    ensures always { K.COMPLETE ≡ true → result ≡ Ok tt }
{
    let target = w.saturating_mul(width);
    let source = by.saturating_mul(width);
    let size = table.len();
    let columns = width
        .min(size.saturating_sub(target))
        .min(size.saturating_sub(source));
    // By place: the two rows may be one, and one row can't be lent twice.
    for i in 0..columns {
        let left = table[target + i].less_times(f, table[source + i]);
        table[target + i] = left.map_err(|fault| RowFault {
            column: i + 1,
            fault,
        })?;
    }
    Ok(())
}

// Makes the column s of the row w of a table 0, by the row `by`, which is 1 there.
pub fn clear_row<K: Number>(
    table: &mut [K],
    width: usize,
    w: usize,
    s: usize,
    by: usize,
) -> Result<(), RowFault>
    ensures answer { result ≡ done (cleared K.kind s (row_of width table.old w) (row_of width table.old by)) }
    ensures after { table.new ≡ with_row width table.old w (clear_swept K.kind s (row_of width table.old w) (row_of width table.old by)) }
    ensures always { K.COMPLETE ≡ true → result ≡ Ok tt }
{
    if s >= width {
        return Ok(());
    }
    let column = w.saturating_mul(width).saturating_add(s);
    if column >= table.len() {
        return Ok(());
    }
    let f = table[column];
    if f.is_zero() {
        return Ok(());
    }
    subtract_row(table, width, w, f, by)
}
