// Reads one event of dialect S, the S800 event of version 5 (document 01), into rows.
#![tactic(auto)]

mod channel;
mod channel_packets;
mod content;
mod groups;
mod head;
mod open_packet;
mod packet;
mod parts;
mod scan;
mod whole_packets;
mod word;

ghost use Rattle.std.specs.Prelude.{◌≡◌, length};
ghost use Rattle.event.specs.Outcome.{answer_of, given, overlaid, in_room};
ghost use Rattle.event.specs.Rows.{flat, room};
ghost use Rattle.s800_layout.specs.Reading.{reading};

use crate::scan::scan;
use event::StampOrder;
use event::refusal::{Fault, Refusal, refuse};

// The number of rows of an event, or its refusal.
pub fn check(words: &[u16], order: StampOrder) -> Result<usize, Refusal>
    ensures { result ≡ answer_of (reading order words.now) }
{
    let mut none: [u32; 0] = [];
    scan(words, order, &mut none)
}

// Reads one event into rows, four elements each. A refused reading leaves every element as it was.
pub fn read(words: &[u16], order: StampOrder, rows: &mut [u32]) -> Result<usize, Refusal>
    ensures answer { result ≡ answer_of (in_room (room (length rows.old)) (reading order words.now)) }
    ensures buffer { rows.new ≡ overlaid (flat (given (in_room (room (length rows.old)) (reading order words.now)))) rows.old }
{
    let count = check(words, order)?;
    if rows.len() / 4 < count {
        return refuse(Fault::Room, count);
    }
    scan(words, order, rows)
}
