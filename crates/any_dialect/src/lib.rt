// Reading and writing by dialect (document 01): the one place that chooses a reader or a writer. Words of 16 bits stand in `words`, those of 32 bits in `longwords`;
// the buffer of the other width is neither read nor written. The two stay two arguments: the calls from C lend both, and the callers
// in Rattle have one of them empty.
#![tactic(auto)]

ghost use Rattle.std.specs.Prelude.{◌≡◌, length};
ghost use Rattle.event.specs.Outcome.{answer_of, given, overlaid};
ghost use Rattle.event.specs.Rows.{flat, room};
ghost use Rattle.dialects.specs.Dialects.{reading_into, writing_into, of_width, over16, over32};

use dialects::Dialect;
use event::StampOrder;
use event::refusal::Refusal;

// Reads one event into rows, four elements each. A refused reading leaves every element as it was.
pub fn read(
    dialect: Dialect,
    words: &[u16],
    longwords: &[u32],
    order: StampOrder,
    rows: &mut [u32],
) -> Result<usize, Refusal>
    ensures answer { result ≡ answer_of (reading_into dialect (room (length rows.old)) order (of_width dialect words.now longwords.now)) }
    ensures rows { rows.new ≡ overlaid (flat (given (reading_into dialect (room (length rows.old)) order (of_width dialect words.now longwords.now)))) rows.old }
{
    match dialect {
        Dialect::S => s800::read(words, order, rows),
        Dialect::F => frs::read(longwords, rows),
        Dialect::R => rcnp::read(words, rows),
    }
}

// Writes the words of one event from its rows, four elements each. A refused writing leaves every word as it was.
pub fn write(
    dialect: Dialect,
    rows: &[u32],
    order: StampOrder,
    words: &mut [u16],
    longwords: &mut [u32],
) -> Result<usize, Refusal>
    ensures answer { result ≡ answer_of (writing_into dialect (length (of_width dialect words.old longwords.old)) order rows.now) }
    ensures words { words.new ≡ over16 dialect (given (writing_into dialect (length (of_width dialect words.old longwords.old)) order rows.now)) words.old }
    ensures longwords { longwords.new ≡ over32 dialect (given (writing_into dialect (length (of_width dialect words.old longwords.old)) order rows.now)) longwords.old }
{
    match dialect {
        Dialect::S => s800::write(rows, order, words),
        Dialect::F => frs::write(rows, longwords),
        Dialect::R => rcnp::write(rows, words),
    }
}
