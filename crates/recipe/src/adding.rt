ghost use Rattle.std.specs.Prelude.{◌≡◌, ◌≤◌, ℕ, List, length};
ghost use Rattle.bounded.specs.Items.{items};
ghost use Rattle.std.specs.Fn.{FnOnceReturnsAtMut};
ghost use Rattle.printing.specs.Rows.{held_row, follows_row, clash_row, refused_row, settled_row};
ghost use Rattle.recipe.specs.Added.{Added, Writes, parts_told, entry_of, entries_of};

use bounded::bounded::Bounded;
use elimination::record::Record;
use exact::report::Report;
use exact::shown::{Parts, Shown};
use printing::entry::Entry;
use printing::fault::PrintFault;
use printing::row::{
    MOST_ENTRIES, ROW_BYTES, clash_row, follows_row, held_row, refused_row, settled_row,
};
use std::alloc::AllocError;

// Stands where no line of a clash does.
const NO_ENTRY: Entry = Entry {
    label: 0,
    multiplier: Parts { top: 0, bottom: 1 },
};

// Adds the row that a call writes to the output. A row is written over a lent slice; this one suffices for any, so none is refused.
fn add_row<F: FnOnce(&mut [u8]) -> Result<usize, PrintFault>>(
    out: &mut Vec<u8>,
    write: F,
) -> Result<(), AllocError>
    ghost text: { List ℕ }
    requires callable { F.IsAlwaysCallable write }
    requires writes { Writes (FnOnceReturnsAtMut F.FnOnce write) text }
    ensures { Added text out.old.items out.new.items result }
{
    let mut row = [0; ROW_BYTES];
    let end = write(&mut row).unwrap();
    out.extend_from_slice(&row[..end])
}

pub(crate) fn add_held(out: &mut Vec<u8>, label: u32, place: usize) -> Result<(), AllocError>
    ensures { Added (held_row label place) out.old.items out.new.items result }
{
    add_row(out, |row| held_row(row, label, place))
}

pub(crate) fn add_follows(out: &mut Vec<u8>, label: u32) -> Result<(), AllocError>
    ensures { Added (follows_row label) out.old.items out.new.items result }
{
    add_row(out, |row| follows_row(row, label))
}

pub(crate) fn add_refused(out: &mut Vec<u8>, label: u32, report: Report) -> Result<(), AllocError>
    ensures { Added (refused_row label report) out.old.items out.new.items result }
{
    add_row(out, |row| refused_row(row, label, report))
}

pub(crate) fn add_settled(
    out: &mut Vec<u8>,
    set_point: usize,
    value: Parts,
) -> Result<(), AllocError>
    ensures { Added (settled_row set_point value) out.old.items out.new.items result }
{
    add_row(out, |row| settled_row(row, set_point, value))
}

pub(crate) fn add_clash<K: Shown>(
    out: &mut Vec<u8>,
    label: u32,
    evidence: &[Record<K>],
) -> Result<(), AllocError>
    requires { length evidence.now ≤ 49 }
    ensures { Added (clash_row label (entries_of K.Number.kind evidence.now)) out.old.items out.new.items result }
{
    let entries = entries_of(evidence);
    add_entries(out, label, entries.as_slice())
}

fn add_entries(out: &mut Vec<u8>, label: u32, entries: &[Entry]) -> Result<(), AllocError>
    requires { length entries.now ≤ 49 }
    ensures { Added (clash_row label entries.now) out.old.items out.new.items result }
{
    add_row(out, |row| clash_row(row, label, entries))
}

// On no heap, so that a clash that is told needs no memory but that of its row.
fn entries_of<K: Shown>(evidence: &[Record<K>]) -> Bounded<Entry, MOST_ENTRIES>
    requires { length evidence.now ≤ 49 }
    ensures { items result ≡ entries_of K.Number.kind evidence.now }
{
    let mut entries = Bounded::new(NO_ENTRY);
    for told in evidence {
        entries.push(entry_of(*told)).unwrap();
    }
    entries
}

// A record as it is printed. (Neither type is of this crate, so no From can stand here.)
fn entry_of<K: Shown>(told: Record<K>) -> Entry
    ensures { result ≡ entry_of K.Number.kind told }
{
    Entry {
        label: told.label,
        multiplier: parts_of(told.multiplier),
    }
}

// A value as it is printed: by the fraction that it tells alone. (What `parts` promises is that its parts make that fraction.)
pub(crate) fn parts_of<K: Shown>(value: K) -> Parts
    ensures { result ≡ parts_told (K.Number.kind.tells value) }
{
    value.parts()
}
