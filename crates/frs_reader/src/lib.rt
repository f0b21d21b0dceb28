// Reads one event of dialect F, the FRS VME event (document 01), into rows.
#![tactic(auto)]

mod begin;
mod longword;
mod module;
mod scan;

ghost use Rattle.std.specs.Prelude.{◌≡◌, length};
ghost use Rattle.event.specs.Outcome.{answer_of, given, overlaid, in_room};
ghost use Rattle.event.specs.Rows.{flat, room};
ghost use Rattle.frs_layout.specs.Reading.{reading};

use crate::scan::scan;
use event::refusal::{Fault, Refusal, refuse};

// Reads one event into rows, four elements each. A refused reading leaves every element as it was.
pub fn read(words: &[u32], rows: &mut [u32]) -> Result<usize, Refusal>
    ensures answer { result ≡ answer_of (in_room (room (length rows.old)) (reading words.now)) }
    ensures buffer { rows.new ≡ overlaid (flat (given (in_room (room (length rows.old)) (reading words.now)))) rows.old }
{
    let mut none: [u32; 0] = [];
    let count = scan(words, &mut none)?;
    if rows.len() / 4 < count {
        return refuse(Fault::Room, count);
    }
    scan(words, rows)
}
