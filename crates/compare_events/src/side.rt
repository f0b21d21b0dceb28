// Two events side by side: the text of their comparison.
ghost use Rattle.std.specs.Prelude.{◌+◌, ◌*◌, ◌≤◌, ◌≡◌, length};
ghost use Rattle.dialects.specs.declared.Dialect.TheVariants.{S};
ghost use Rattle.dialects.specs.Dialects.{width, largest_rows};
ghost use Rattle.hex_line.specs.Line.{most_words};
ghost use Rattle.hex_line.specs.Text.{Placed};
ghost use Rattle.comparison.specs.Differences.{tail_of};
ghost use Rattle.compare_events.specs.Text.{tail_lines, tail_text};
ghost use Rattle.compare_events.specs.Print.{compared_text};
ghost use Rattle.compare_events.specs.Lengths.{tail_length, compared_length};

use crate::text::{put_end, put_rows, put_tail_line, put_words};
use crate::{ROW_NUMBERS, WORD_NUMBERS};
use compare::{EventWord, compare, tail};
use dialects::Dialect;
use event::StampOrder;

// Puts the comparison of two events at `at`.
pub(crate) fn put_compared<W: EventWord>(
    dialect: Dialect,
    first: &[W],
    second: &[W],
    order: StampOrder,
    text: &mut [u8],
    at: usize,
) -> usize
    requires dialect_value { (width dialect ≡ W.bits) × (length (W.numbers first.now) ≤ most_words S) × (length (W.numbers second.now) ≤ most_words S) }
    requires compared_length_in_bounds { at + compared_length ≤ length text.old }
    ensures { Placed text.old at (compared_text dialect order (W.numbers first.now) (W.numbers second.now)) result text.new }
{
    let mut words = [0u64; WORD_NUMBERS];
    let mut rows = [0u32; ROW_NUMBERS];
    put_by(
        dialect, first, second, order, &mut words, &mut rows, text, at,
    )
}

// The same by way of room for the largest lists: so 25 never shows.
fn put_by<W: EventWord>(
    dialect: Dialect,
    first: &[W],
    second: &[W],
    order: StampOrder,
    words: &mut [u64],
    rows: &mut [u32],
    text: &mut [u8],
    at: usize,
) -> usize
    requires dialect_value { (width dialect ≡ W.bits) × (length (W.numbers first.now) ≤ most_words S) × (length (W.numbers second.now) ≤ most_words S) }
    requires words_len { (length words.old ≡ 3 * most_words S) × (length rows.old ≡ 9 * largest_rows) × (at + compared_length ≤ length text.old) }
    ensures { Placed text.old at (compared_text dialect order (W.numbers first.now) (W.numbers second.now)) result text.new }
{
    let Ok(listed) = compare(dialect, first, second, order, words, rows) else {
        return at;
    };
    let a = 3 * listed.words;
    let b = 9 * listed.rows;
    let middle = put_words(text, at, &words[..a]);
    let more = put_tail(text, middle, first, second);
    let end = put_rows(text, more, &rows[..b]);
    put_end(
        text,
        end,
        listed.words,
        tail(first, second).len(),
        listed.rows,
    )
}

// Puts the tail of two events: that of the second, or else of the first.
fn put_tail<W: EventWord>(text: &mut [u8], at: usize, first: &[W], second: &[W]) -> usize
    requires { (length (W.numbers first.now) ≤ most_words S) × (length (W.numbers second.now) ≤ most_words S) × (at + tail_length * length (tail_of (W.numbers first.now) (W.numbers second.now)) ≤ length text.old) }
    ensures { Placed text.old at (tail_text (W.numbers first.now) (W.numbers second.now)) result text.new }
{
    let tail = tail(first, second);
    if first.len() < second.len() {
        return put_lines(text, at, b" second ", first.len(), tail);
    }
    put_lines(text, at, b" first ", second.len(), tail)
}

// Puts a line for each word of the tail, which starts at an index.
fn put_lines<W: EventWord>(
    text: &mut [u8],
    at: usize,
    label: &[u8],
    from: usize,
    tail: &[W],
) -> usize
    requires { (length label.now ≤ 8) × (from + length tail.now ≤ most_words S + most_words S) × (at + tail_length * length tail.now ≤ length text.old) }
    ensures { Placed text.old at (tail_lines label.now from (W.numbers tail.now)) result text.new }
{
    let mut end = at;
    for (i, word) in tail.iter().enumerate() {
        end = put_tail_line(text, end, label, (from + i) as u64, word.to_number());
    }
    end
}
