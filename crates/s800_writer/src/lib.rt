// Writes one event of dialect S, the S800 event of version 5 (document 01), from its rows.
#![tactic(auto)]

mod channel_packets;
mod content;
mod groups;
mod other_packets;
mod packet;
mod part;
mod row;
mod run;
mod whole;

ghost use Rattle.std.specs.Prelude.{◌≡◌, length};
ghost use Rattle.event.specs.Outcome.{answer_of, given, overlaid, in_word_room};
ghost use Rattle.s800_layout.specs.Writing.{writing};

use crate::whole::write_event;
use event::StampOrder;
use event::refusal::{Fault, Refusal, refuse};

// Writes the words of one event from its rows, four elements each. A refused writing leaves every word as it was.
pub fn write(rows: &[u32], order: StampOrder, words: &mut [u16]) -> Result<usize, Refusal>
    ensures answer { result ≡ answer_of (in_word_room (length words.old) (writing order rows.now)) }
    ensures words { words.new ≡ overlaid (given (in_word_room (length words.old) (writing order rows.now))) words.old }
{
    if rows.len() % 4 != 0 {
        return refuse(Fault::Elements, 0);
    }
    let mut none: [u16; 0] = [];
    let count = write_event(rows, order, &mut none)?;
    if s800_format::LARGEST_EVENT < count {
        return refuse(Fault::Large, count);
    }
    if words.len() < count {
        return refuse(Fault::Words, count);
    }
    write_event(rows, order, words)
}
