// Reading and writing one after the other, on lent buffers: each gives back what the other was given, whatever the dialect. Words of 16 bits stand in one buffer, those of
// 32 bits in the other, as in any_dialect.
#![tactic(auto)]

ghost use Rattle.std.specs.Prelude.{◌≡◌, length};
ghost use Rattle.event.specs.Outcome.{answer_of, given, overlaid};
ghost use Rattle.event.specs.Rows.{flat, room};
ghost use Rattle.dialects.specs.Dialects.{reading_into, writing_into, of_width, over16, over32};
ghost use Rattle.round_trips.specs.RoundTrips.{back_words, back_rows};

use dialects::Dialect;
use event::StampOrder;
use event::refusal::Refusal;
use event::words::part_start;

// Reads the words into `rows`, and writes the rows read into `back` or `long_back`: the words again.
pub fn words_back(
    dialect: Dialect,
    words: &[u16],
    longwords: &[u32],
    order: StampOrder,
    rows: &mut [u32],
    back: &mut [u16],
    long_back: &mut [u32],
) -> Result<usize, Refusal>
    ensures answer { result ≡ answer_of (back_words dialect order (room (length rows.old)) (length (of_width dialect back.old long_back.old)) (of_width dialect words.now longwords.now)) }
    ensures rows { rows.new ≡ overlaid (flat (given (reading_into dialect (room (length rows.old)) order (of_width dialect words.now longwords.now)))) rows.old }
    ensures back { back.new ≡ over16 dialect (given (back_words dialect order (room (length rows.old)) (length (of_width dialect back.old long_back.old)) (of_width dialect words.now longwords.now))) back.old }
    ensures long_back { long_back.new ≡ over32 dialect (given (back_words dialect order (room (length rows.old)) (length (of_width dialect back.old long_back.old)) (of_width dialect words.now longwords.now))) long_back.old }
{
    let count = any_dialect::read(dialect, words, longwords, order, rows)?;
    let end = count * 4;
    any_dialect::write(dialect, &rows[..end], order, back, long_back)
}

// Writes the rows into `words` or `longwords`, and reads the words written into `back`: the rows again.
pub fn rows_back(
    dialect: Dialect,
    rows: &[u32],
    order: StampOrder,
    words: &mut [u16],
    longwords: &mut [u32],
    back: &mut [u32],
) -> Result<usize, Refusal>
    ensures answer { result ≡ answer_of (back_rows dialect order (length (of_width dialect words.old longwords.old)) (room (length back.old)) rows.now) }
    ensures words { words.new ≡ over16 dialect (given (writing_into dialect (length (of_width dialect words.old longwords.old)) order rows.now)) words.old }
    ensures longwords { longwords.new ≡ over32 dialect (given (writing_into dialect (length (of_width dialect words.old longwords.old)) order rows.now)) longwords.old }
    ensures back { back.new ≡ overlaid (flat (given (back_rows dialect order (length (of_width dialect words.old longwords.old)) (room (length back.old)) rows.now))) back.old }
{
    let count = any_dialect::write(dialect, rows, order, words, longwords)?;
    let short = part_start(count, words.len());
    let long = part_start(count, longwords.len());
    any_dialect::read(dialect, &words[..short], &longwords[..long], order, back)
}
