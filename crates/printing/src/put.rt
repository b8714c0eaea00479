ghost use Rattle.std.specs.Prelude.{◌≡◌, ◌+◌, ◌*◌, ◌≤◌, [], ◌++◌, length};
ghost use Rattle.std.specs.List.{flat_map};
ghost use Rattle.printing.specs.Rows.{value_text, entry_text, roomy, Rowed};

use crate::entry::Entry;
use crate::fault::PrintFault;
use crate::row::ROW_BYTES;
use arrayvec::ArrayString;
use exact::shown::Parts;
use itoa::{Buffer, Integer};

// A row of at most N bytes that is put together part by part. A text pays for all its room when it begins, so N is no larger than the row needs.
#[derive(Drop)]
pub(crate) struct Row<const N: usize> {
    text: ArrayString<N>,
}

// A part's clauses say the most that it takes, each its own number: one word for them would say no less.
impl<const N: usize> Row<N> {
    pub(crate) fn new() -> Self
        ensures { result.text.bytes ≡ [] }
    {
        Row {
            text: ArrayString::new(),
        }
    }

    pub(crate) fn put(&mut self, part: &str)
        requires { length self.old.text.bytes + length part.now ≤ N }
        ensures { self.new.text.bytes ≡ self.old.text.bytes ++ part.now }
    {
        self.text.push_str(part);
    }

    // Not by `write!` and Display: no clause says when they succeed, and a row that has room is never refused.
    pub(crate) fn put_number<I: Integer>(&mut self, n: I)
        requires { length self.old.text.bytes + I.MAX_STR_LEN ≤ N }
        ensures after { self.new.text.bytes ≡ self.old.text.bytes ++ I.text n }
        ensures short { length self.new.text.bytes ≤ length self.old.text.bytes + I.MAX_STR_LEN }
    {
        let mut digits = Buffer::new();
        self.text.push_str(digits.format(n));
    }

    // A value takes at most 22 bytes.
    pub(crate) fn put_value(&mut self, value: Parts)
        requires { length self.old.text.bytes + 22 ≤ N }
        ensures after { self.new.text.bytes ≡ self.old.text.bytes ++ value_text value }
        ensures short { length self.new.text.bytes ≤ length self.old.text.bytes + 22 }
    {
        self.put_number(value.top);
        if value.bottom == 1 {
            return;
        }
        self.put("/");
        self.put_number(value.bottom);
    }

    // An entry takes at most 34 bytes.
    fn put_entry(&mut self, entry: Entry)
        requires { length self.old.text.bytes + 34 ≤ N }
        ensures after { self.new.text.bytes ≡ self.old.text.bytes ++ entry_text entry }
        ensures short { length self.new.text.bytes ≤ length self.old.text.bytes + 34 }
    {
        self.put(" ");
        self.put_number(entry.label);
        self.put(":");
        self.put_value(entry.multiplier);
    }

    pub(crate) fn put_entries(&mut self, entries: &[Entry])
        requires { length self.old.text.bytes + 34 * length entries.now ≤ N }
        ensures after { self.new.text.bytes ≡ self.old.text.bytes ++ flat_map entry_text entries.now }
        ensures short { length self.new.text.bytes ≤ length self.old.text.bytes + 34 * length entries.now }
    {
        for entry in entries {
            self.put_entry(*entry);
        }
    }

    // Writes the row at the start of the slice, and answers its length.
    pub(crate) fn write(&self, out: &mut [u8]) -> Result<usize, PrintFault>
        requires { N ≤ 2048 }
        ensures { Rowed (roomy out.old) self.now.text.bytes out.old out.new result }
    {
        if out.len() < ROW_BYTES {
            return Err(PrintFault::Room);
        }
        let text = self.text.as_str();
        out[..text.len()].copy_from_slice(text.as_bytes());
        Ok(text.len())
    }
}
