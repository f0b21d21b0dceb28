// Writes one event of dialect R, RCNP regions (document 02, #101), from its rows.
#![tactic(auto)]

mod content;
mod fault;
mod fill;
mod region;
mod run;
mod sum;
mod whole;
mod word;

ghost use Rattle.std.specs.Prelude.{◌≡◌, length};
ghost use Rattle.event.specs.Outcome.{answer_of, given, overlaid, in_word_room};
ghost use Rattle.rcnp_layout.specs.Writing.{writing};

use crate::fill::write_regions;
use crate::whole::count_words;
use event::refusal::{Fault, Refusal, refuse};

// Writes one event from its rows, four elements each. A refused writing leaves every word as it was.
pub fn write(rows: &[u32], words: &mut [u16]) -> Result<usize, Refusal>
    ensures answer { result ≡ answer_of (in_word_room (length words.old) (writing rows.now)) }
    ensures words { words.new ≡ overlaid (given (in_word_room (length words.old) (writing rows.now))) words.old }
{
    if rows.len() % 4 != 0 {
        return refuse(Fault::Elements, 0);
    }
    let count = count_words(rows)?;
    if rcnp_format::LARGEST_EVENT < count {
        return refuse(Fault::Large, count);
    }
    if words.len() < count {
        return refuse(Fault::Words, count);
    }
    write_regions(rows, words);
    Ok(count)
}
