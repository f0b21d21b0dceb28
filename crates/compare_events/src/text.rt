// What is printed of a comparison, as text in a lent buffer: each function answers where its text ends. (The buffer and that index stay two parameters: a struct of
// both would be taken apart again at each call of hex_line, which takes and answers them so.)
ghost use Rattle.std.specs.Prelude.{◌+◌, ◌*◌, ◌/◌, ◌≤◌, ◌≡◌, length};
ghost use Rattle.hex_line.specs.Text.{Placed};
ghost use Rattle.comparison.specs.Differences.{difference};
ghost use Rattle.compare_events.specs.Text.{accepted_text, refused_text, answer_text, answers_text, word_text, tail_line, row_line, rows_text, end_text, cut_text};
ghost use Rattle.compare_events.specs.Lengths.{answer_length, word_length, tail_length, row_length, rows_length, last_length};
ghost use Rattle.compare_events.specs.Run.{WordsPut, RowsPut};

use event::refusal::Refusal;
use event::rows::row_at;
use event::{Row, refusal_number};
use hex_line::{put_field, put_text};

// Puts what the two readings answer at the front.
pub(crate) fn put_answers(
    text: &mut [u8],
    first: Result<usize, Refusal>,
    second: Result<usize, Refusal>,
) -> usize
    requires { 2 * answer_length ≤ length text.old }
    ensures { Placed text.old 0 (answers_text first second) result text.new }
{
    let end = put_answer(text, 0, b"first  ", first);
    put_answer(text, end, b"second ", second)
}

fn put_answer(text: &mut [u8], at: usize, label: &[u8], answer: Result<usize, Refusal>) -> usize
    requires { (length label.now ≡ 7) × (at + answer_length ≤ length text.old) }
    ensures { Placed text.old at (answer_text label.now answer) result text.new }
{
    match answer {
        Ok(count) => put_accepted(text, at, label, count),
        Err(refusal) => put_refused(text, at, label, refusal_number(answer), refusal.place),
    }
}

fn put_accepted(text: &mut [u8], at: usize, label: &[u8], count: usize) -> usize
    requires { (length label.now ≡ 7) × (at + answer_length ≤ length text.old) }
    ensures { Placed text.old at (accepted_text label.now count) result text.new }
{
    let middle = put_text(text, at, label);
    let end = put_field(text, middle, b"rows ", count as u64);
    put_text(text, end, b"\n")
}

fn put_refused(text: &mut [u8], at: usize, label: &[u8], number: u32, place: usize) -> usize
    requires { (length label.now ≡ 7) × (at + answer_length ≤ length text.old) }
    ensures { Placed text.old at (refused_text label.now number place) result text.new }
{
    let middle = put_text(text, at, label);
    let more = put_field(text, middle, b"refused ", number as u64);
    let end = put_field(text, more, b" place ", place as u64);
    put_text(text, end, b"\n")
}

// Puts the differing words that a word list holds.
pub(crate) fn put_words(text: &mut [u8], at: usize, list: &[u64]) -> usize
    requires { at + word_length * (length list.now / 3) ≤ length text.old }
    ensures { WordsPut list.now text.old at result text.new }
{
    let mut end = at;
    for entry in list.chunks_exact(3) {
        end = put_word(text, end, entry[0], entry[1], entry[2]);
    }
    end
}

fn put_word(text: &mut [u8], at: usize, index: u64, first: u64, second: u64) -> usize
    requires { at + word_length ≤ length text.old }
    ensures { Placed text.old at (word_text (difference index first second)) result text.new }
{
    let middle = put_field(text, at, b"word ", index);
    let more = put_field(text, middle, b" first ", first);
    let end = put_field(text, more, b" second ", second);
    put_text(text, end, b"\n")
}

// Puts a word of the tail, behind the label of its event.
pub(crate) fn put_tail_line(
    text: &mut [u8],
    at: usize,
    label: &[u8],
    index: u64,
    word: u64,
) -> usize
    requires { (length label.now ≤ 8) × (at + tail_length ≤ length text.old) }
    ensures { Placed text.old at (tail_line label.now index word) result text.new }
{
    let middle = put_field(text, at, b"tail ", index);
    let end = put_field(text, middle, label, word);
    put_text(text, end, b"\n")
}

// Puts the differing rows that a row list holds.
pub(crate) fn put_rows(text: &mut [u8], at: usize, list: &[u32]) -> usize
    requires { at + rows_length * (length list.now / 9) ≤ length text.old }
    ensures { RowsPut list.now text.old at result text.new }
{
    let mut end = at;
    for entry in list.chunks_exact(9) {
        end = put_both(
            text,
            end,
            entry[0],
            row_at(&entry[1..], 0),
            row_at(&entry[5..], 0),
        );
    }
    end
}

// Puts the rows of both events that stand at an index.
fn put_both(text: &mut [u8], at: usize, index: u32, first: Row, second: Row) -> usize
    requires { at + rows_length ≤ length text.old }
    ensures { Placed text.old at (rows_text (difference index first second)) result text.new }
{
    let middle = put_row(text, at, b" first  ", index, first);
    put_row(text, middle, b" second ", index, second)
}

fn put_row(text: &mut [u8], at: usize, label: &[u8], index: u32, row: Row) -> usize
    requires { (length label.now ≡ 8) × (at + row_length ≤ length text.old) }
    ensures { Placed text.old at (row_line label.now index row) result text.new }
{
    let kind = put_field(text, at, b"row ", index as u64);
    let unit = put_field(text, kind, label, row.kind as u64);
    let channel = put_field(text, unit, b" ", row.unit as u64);
    let datum = put_field(text, channel, b" ", row.channel as u64);
    let end = put_field(text, datum, b" ", row.datum as u64);
    put_text(text, end, b"\n")
}

// Puts the last line of a comparison.
pub(crate) fn put_end(text: &mut [u8], at: usize, words: usize, tail: usize, rows: usize) -> usize
    requires { at + last_length ≤ length text.old }
    ensures { Placed text.old at (end_text words tail rows) result text.new }
{
    let middle = put_field(text, at, b"end words ", words as u64);
    let more = put_field(text, middle, b" tail ", tail as u64);
    let end = put_field(text, more, b" rows ", rows as u64);
    put_text(text, end, b"\n")
}

// Puts the last line where nothing was compared.
pub(crate) fn put_cut(text: &mut [u8], at: usize) -> usize
    requires { at + last_length ≤ length text.old }
    ensures { Placed text.old at cut_text result text.new }
{
    put_text(
        text,
        at,
        b"cut words 00000000 tail 00000000 rows 00000000\n",
    )
}
