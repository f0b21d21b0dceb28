// The first two lines of an input, their words, and what is printed of them.
ghost use Rattle.std.specs.Prelude.{◌*◌, ◌≤◌, ◌≡◌, ℕ, length};
ghost use Rattle.event.specs.Outcome.{Outcome, answer_of};
ghost use Rattle.dialects.specs.Dialects.{width, reading, largest_rows};
ghost use Rattle.hex_line.specs.Line.{line_words, most_words};
ghost use Rattle.hex_line.specs.Text.{Placed};
ghost use Rattle.listing.specs.Listing.{and_then};
ghost use Rattle.compare_events.specs.Print.{lines_text, print_of, printed};
ghost use Rattle.compare_events.specs.Lengths.{most_text};
ghost use Rattle.compare_events.specs.Run.{WordsGiven, second_start};

use crate::line_word::LineWord;
use crate::side::put_compared;
use crate::text::{put_answers, put_cut};
use crate::{MOST_LONGWORDS, MOST_WORDS};
use compare::EventWord;
use dialects::{Dialect, LARGEST_ROWS};
use event::StampOrder;
use event::refusal::Refusal;
use hex_line::LONGEST_LINE;
use listing::{dialect_of_line, first_line};

// The elements of the largest event's rows.
const ELEMENTS: usize = 4 * LARGEST_ROWS;

// Puts what is printed of an input at the front.
pub(crate) fn put_print(order: StampOrder, input: &[u8], text: &mut [u8]) -> usize
    requires { most_text ≤ length text.old }
    ensures { Placed text.old 0 (printed order input.now) result text.new }
{
    let count = first_line(input);
    let from = second_start(count, input.len());
    let end = from + first_line(&input[from..]);
    put_lines(order, &input[..count], &input[from..end], text)
}

// Where the second line starts, of an input of so many characters whose first line has `count`: at its end where there is none.
fn second_start(count: usize, all: usize) -> usize
    ensures { result ≡ second_start count all }
{
    if LONGEST_LINE < count {
        return all;
    }
    if count < all {
        return count + 1;
    }
    all
}

// Puts what is printed of two lines at the front.
fn put_lines(order: StampOrder, first: &[u8], second: &[u8], text: &mut [u8]) -> usize
    requires { most_text ≤ length text.old }
    ensures { Placed text.old 0 (print_of order first.now second.now) result text.new }
{
    let dialect = dialect_of_line(first);
    if dialects::width(dialect) == 16 {
        let mut words = [0u16; MOST_WORDS];
        let mut others = [0u16; MOST_WORDS];
        return put_by(dialect, order, first, second, &mut words, &mut others, text);
    }
    let mut longwords = [0u32; MOST_LONGWORDS];
    let mut otherlongs = [0u32; MOST_LONGWORDS];
    put_by(
        dialect,
        order,
        first,
        second,
        &mut longwords,
        &mut otherlongs,
        text,
    )
}

// The same by way of room for the words of any line, twice.
fn put_by<W: LineWord>(
    dialect: Dialect,
    order: StampOrder,
    first: &[u8],
    second: &[u8],
    words: &mut [W],
    others: &mut [W],
    text: &mut [u8],
) -> usize
    requires dialect_value { width dialect ≡ W.bits }
    requires words_len { (most_words dialect ≤ length words.old) × (most_words dialect ≤ length others.old) × (most_text ≤ length text.old) }
    ensures { Placed text.old 0 (lines_text dialect order (line_words dialect first.now) (line_words dialect second.now)) result text.new }
{
    let a = W::words_of(dialect, first, words);
    let b = W::words_of(dialect, second, others);
    let x = read_words(dialect, a, order);
    let y = read_words(dialect, b, order);
    let at = put_answers(text, x, y);
    let Ok(a) = a else {
        return put_cut(text, at);
    };
    let Ok(b) = b else {
        return put_cut(text, at);
    };
    put_compared(dialect, a, b, order, text, at)
}

// What the reading of the words that a line gave answers; where it gave none, its refusal stays.
fn read_words<W: EventWord>(
    dialect: Dialect,
    words: Result<&[W], Refusal>,
    order: StampOrder,
) -> Result<usize, Refusal>
    requires { width dialect ≡ W.bits }
    ensures { (x : Outcome ℕ) → WordsGiven W.numbers x words.entry → result ≡ answer_of (and_then (reading dialect order) x) }
{
    let mut rows = [0u32; ELEMENTS];
    read_by(dialect, words?, order, &mut rows)
}

// By way of room for the rows of the largest event: so 12 never shows.
fn read_by<W: EventWord>(
    dialect: Dialect,
    words: &[W],
    order: StampOrder,
    rows: &mut [u32],
) -> Result<usize, Refusal>
    requires { (width dialect ≡ W.bits) × (length rows.old ≡ 4 * largest_rows) }
    ensures { result ≡ answer_of (reading dialect order (W.numbers words.now)) }
{
    W::read(dialect, words, order, rows)
}
