// Reads one event of dialect R, the RCNP regions (document 02, #101), into rows.
#![tactic(auto)]

mod content;
mod region;
mod scan;
mod word;

ghost use Rattle.std.specs.Prelude.{◌≡◌, length};
ghost use Rattle.event.specs.Outcome.{answer_of, given, overlaid, in_room};
ghost use Rattle.event.specs.Rows.{flat, room};
ghost use Rattle.rcnp_layout.specs.Reading.{reading};

use crate::scan::{parts, scan};
use event::Part;
use event::refusal::{Fault, Refusal, refuse};

// What a region's header leads to.
#[derive(Drop)]
enum Opened {
    // The region was read.
    Whole(Part),
    // A VDC region, whose own row is stored; its words, which end at `end`, are not read yet.
    Chamber { end: usize },
}

// Reads one event into rows, four elements each. A refused reading leaves every element as it was. The filling need not sum again.
pub fn read(words: &[u16], rows: &mut [u32]) -> Result<usize, Refusal>
    ensures answer { result ≡ answer_of (in_room (room (length rows.old)) (reading words.now)) }
    ensures buffer { rows.new ≡ overlaid (flat (given (in_room (room (length rows.old)) (reading words.now)))) rows.old }
{
    let count = scan(words, &mut [])?;
    if rows.len() / 4 < count {
        return refuse(Fault::Room, count);
    }
    parts(words, rows)
}
