// The rows of a line: its words, and their reading.
ghost use Rattle.std.specs.Prelude.{◌≡◌, length};
ghost use Rattle.event.specs.Outcome.{answer_of, given, overlaid};
ghost use Rattle.event.specs.Rows.{flat, room};
ghost use Rattle.dialects.specs.Dialects.{of_width, over16, over32};
ghost use Rattle.hex_line.specs.Line.{line_into};
ghost use Rattle.listing.specs.Listing.{line_dialect, line_rows_into};

use dialects::Dialect;
use event::StampOrder;
use event::refusal::Refusal;

// Reads a line into `rows`, by way of its words in the buffer of their width.
pub fn line_rows(
    line: &[u8],
    order: StampOrder,
    words: &mut [u16],
    longwords: &mut [u32],
    rows: &mut [u32],
) -> Result<usize, Refusal>
    ensures answer { result ≡ answer_of (line_rows_into (length (of_width (line_dialect line.now) words.old longwords.old)) (room (length rows.old)) order line.now) }
    ensures rows { rows.new ≡ overlaid (flat (given (line_rows_into (length (of_width (line_dialect line.now) words.old longwords.old)) (room (length rows.old)) order line.now))) rows.old }
    ensures words { words.new ≡ over16 (line_dialect line.now) (given (line_into (line_dialect line.now) (length (of_width (line_dialect line.now) words.old longwords.old)) line.now)) words.old }
    ensures longwords { longwords.new ≡ over32 (line_dialect line.now) (given (line_into (line_dialect line.now) (length (of_width (line_dialect line.now) words.old longwords.old)) line.now)) longwords.old }
{
    let dialect = dialect_of_line(line);
    let count = hex_line::words(dialect, line, words, longwords)?;
    let short = count.min(words.len());
    let long = count.min(longwords.len());
    any_dialect::read(dialect, &words[..short], &longwords[..long], order, rows)
}

// The dialect of a line by its letter.
pub fn dialect_of_line(line: &[u8]) -> Dialect
    ensures { result ≡ line_dialect line.now }
{
    match line {
        [b'F', ..] => Dialect::F,
        [b'R', ..] => Dialect::R,
        _ => Dialect::S,
    }
}
