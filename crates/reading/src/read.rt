ghost use Rattle.reading.specs.Reading.{Reads, told};

use crate::fault::FormFault;
use crate::line::Line;
use crate::mark::Mark;
use crate::stage::Stage;
use crate::term::Term;
use bounded::bounded::Bounded;
use std::num::NonZeroUsize;

// Stands where no term does.
const NO_TERM: Term = Term {
    negative: false,
    coefficient: 0,
    start: None,
    place: 0,
    number: 0,
};

// Reads a text as a line of the form.
pub fn read_line(text: &[u8]) -> Result<Line, FormFault>
    ensures { Reads text.now (told result) }
{
    if text.len() > 200 {
        return Err(FormFault { column: 201 });
    }
    let mut stage = Stage::Opening;
    // The places and their count stand apart here, since a `Bounded` that is filled in place is moved twice more.
    let mut places = [NO_TERM; 200];
    let mut count = 0;
    for (i, byte) in text.iter().enumerate() {
        let column = NonZeroUsize::MIN.saturating_add(i);
        let step = stage.moved(column, Mark::from(*byte)).ok_or(FormFault {
            column: column.get(),
        })?;
        if let Some(term) = step.ended {
            places[count] = term;
            count += 1;
        }
        stage = step.next;
    }
    match stage {
        Stage::Constant(negative, figure) => Ok(Line {
            terms: Bounded::of(places, count),
            negative,
            constant: figure.value,
            start: figure.start,
        }),
        _ => Err(FormFault {
            column: text.len() + 1,
        }),
    }
}
