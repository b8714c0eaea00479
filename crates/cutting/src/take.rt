ghost use Rattle.std.specs.Prelude.{◌≡◌, ◌<◌, ◌∷◌, ◌==◌, length};
ghost use Rattle.std.specs.Iterator.{item_count, YieldsFirstBy};
ghost use Rattle.std.specs.List.{position};
ghost use Rattle.cutting.specs.Lines.{lines};
ghost use Rattle.cutting.specs.Taken.{Taken, Next, named, as_pair};

use crate::lines::{Labelled, Lines};

// The place of the first byte 0A.
fn newline(text: &[u8]) -> Option<usize>
    ensures { result ≡ position (λ b. b == 10) text.now }
{
    text.iter().position(|byte| *byte == b'\n')
}

// The first line of a text, and what stands after its byte 0A.
fn first_line(text: &[u8]) -> (&[u8], &[u8])
    ensures parted { 0 < length text.now → lines text.now ≡ result.0.now ∷ lines result.1.now }
    ensures shorter { 0 < length text.now → length result.1.now < length text.now }
{
    match newline(text) {
        Some(end) => (&text[..end], &text[end + 1..]),
        None => text.split_at(text.len()),
    }
}

impl<'a> Lines<'a> {
    // All the lines of an input.
    pub fn of(text: &'a [u8]) -> Lines<'a>
        ensures rest { result.rest.now ≡ text.now }
        ensures label { result.label ≡ 0 }
    {
        Lines {
            rest: text,
            label: 0,
        }
    }

    // Takes the first of the lines, empty or not.
    pub fn take_line(&mut self) -> Option<&'a [u8]>
        ensures { Taken self.old self.new result }
    {
        if self.rest.is_empty() {
            return None;
        }
        let (line, rest) = first_line(self.rest);
        self.rest = rest;
        self.label += 1;
        Some(line)
    }

    // Takes the lines up to the first that is not empty.
    pub fn next_line(&mut self) -> Option<Labelled<'a>>
        ensures { Next self.old self.new result }
    {
        loop {
            let label = self.label;
            let bytes = self.take_line()?;
            if !bytes.is_empty() {
                return Some(Labelled { label, bytes });
            }
        }
    }
}

impl<'a> Iterator for Lines<'a> {
    type Item = Labelled<'a>;

    ghost next_gives = { YieldsFirstBy as_pair named };

    ghost remaining = { item_count named };

    fn next(&mut self) -> Option<Labelled<'a>> {
        self.next_line()
    }
}
