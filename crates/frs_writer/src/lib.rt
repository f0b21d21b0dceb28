// Writes one event of dialect F, the FRS VME event (document 01), from its rows.
#![tactic(auto)]

mod begin;
mod fault;
mod longword;
mod module;
mod whole;

ghost use Rattle.std.specs.Prelude.{◌≡◌, length};
ghost use Rattle.event.specs.Outcome.{answer_of, given, overlaid, in_word_room};
ghost use Rattle.frs_layout.specs.Writing.{writing};

use crate::whole::write_event;
use event::refusal::{Fault, Refusal, refuse};

// Writes one event from its rows, four elements each. A refused writing leaves every longword as it was.
pub fn write(rows: &[u32], words: &mut [u32]) -> Result<usize, Refusal>
    ensures answer { result ≡ answer_of (in_word_room (length words.old) (writing rows.now)) }
    ensures words { words.new ≡ overlaid (given (in_word_room (length words.old) (writing rows.now))) words.old }
{
    if rows.len() % 4 != 0 {
        return refuse(Fault::Elements, 0);
    }
    let mut none: [u32; 0] = [];
    let count = write_event(rows, &mut none)?;
    if frs_format::LARGEST_EVENT < count {
        return refuse(Fault::Large, count);
    }
    if words.len() < count {
        return refuse(Fault::Words, count);
    }
    write_event(rows, words)
}
