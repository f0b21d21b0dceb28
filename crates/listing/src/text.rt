// What is listed, as text at the start of a lent buffer: the answer for a line and its rows, and the last line. Each is put where there is room for
// all of it, and its number of characters answered; else nothing is put, and 0 answered.
ghost use Rattle.std.specs.Prelude.{◌+◌, ◌*◌, ◌≤◌, ◌≡◌, length};
ghost use Rattle.event.specs.Outcome.{overlaid};
ghost use Rattle.event.specs.Parser.{each};
ghost use Rattle.event.specs.Rows.{room};
ghost use Rattle.event.specs.Writing.{rows_in};
ghost use Rattle.hex_line.specs.Text.{Placed};
ghost use Rattle.listing.specs.Text.{accepted_text, refused_text, answer_text, row_text, event_text, last_label, last_text, fitted};
ghost use Rattle.listing.specs.Lengths.{accepted_length, refused_length, answer_length, row_length};

use event::refusal::Refusal;
use event::rows::row_at;
use event::{Row, refusal_number};
use hex_line::{LONGEST_LINE, put_field, put_number, put_text};

// The characters of the answer for an accepted line and for a refused one, of a row, and of the last line.
const ACCEPTED: usize = 29;

const REFUSED: usize = 47;

const ROW: usize = 36;

pub const LAST_LENGTH: usize = 37;

// The most characters that the answer for a line and its rows take: those of a refusal, and of as many rows as a line that is not too long has words.
pub const MOST_TEXT: usize = REFUSED + ROW * ((LONGEST_LINE - 1) / 5);

// Puts the answer for line `number` and its rows.
pub fn put_event(
    number: u64,
    answer: Result<usize, Refusal>,
    rows: &[u32],
    text: &mut [u8],
) -> usize
    ensures count { result ≡ length (fitted (length text.old) (event_text number answer (rows_in rows.now))) }
    ensures buffer { text.new ≡ overlaid (fitted (length text.old) (event_text number answer (rows_in rows.now))) text.old }
{
    let head = answer_length(answer);
    if text.len() < head || (text.len() - head) / ROW < rows.len() / 4 {
        return 0;
    }
    let end = put_answer(text, number, answer);
    put_rows(text, end, rows)
}

// Puts the last line of a listing, which may be cut off.
pub fn put_last(cut: bool, accepted: u64, refused: u64, text: &mut [u8]) -> usize
    ensures count { result ≡ length (fitted (length text.old) (last_text cut accepted refused)) }
    ensures buffer { text.new ≡ overlaid (fitted (length text.old) (last_text cut accepted refused)) text.old }
{
    if text.len() < LAST_LENGTH {
        return 0;
    }
    let middle = put_field(text, 0, last_label(cut), accepted);
    let end = put_field(text, middle, b" refused ", refused);
    put_text(text, end, b"\n")
}

fn last_label(cut: bool) -> &'static [u8]
    ensures { result.now ≡ last_label cut }
{
    if cut { b"cut events " } else { b"end events " }
}

// How many characters the answer takes, whatever the line's number.
fn answer_length(answer: Result<usize, Refusal>) -> usize
    ensures { result ≡ answer_length answer }
{
    if answer.is_ok() { ACCEPTED } else { REFUSED }
}

fn put_answer(text: &mut [u8], line: u64, answer: Result<usize, Refusal>) -> usize
    requires { answer_length answer ≤ length text.old }
    ensures { Placed text.old 0 (answer_text line answer) result text.new }
{
    match answer {
        Ok(count) => put_accepted(text, line, count),
        Err(refusal) => put_refused(text, line, refusal_number(answer), refusal.place),
    }
}

fn put_accepted(text: &mut [u8], line: u64, count: usize) -> usize
    requires { accepted_length ≤ length text.old }
    ensures { Placed text.old 0 (accepted_text line count) result text.new }
{
    let middle = put_field(text, 0, b"event ", line);
    let end = put_field(text, middle, b" rows ", count as u64);
    put_text(text, end, b"\n")
}

fn put_refused(text: &mut [u8], line: u64, number: u32, place: usize) -> usize
    requires { refused_length ≤ length text.old }
    ensures { Placed text.old 0 (refused_text line number place) result text.new }
{
    let middle = put_field(text, 0, b"event ", line);
    let more = put_field(text, middle, b" refused ", u64::from(number));
    let end = put_field(text, more, b" place ", place as u64);
    put_text(text, end, b"\n")
}

// Puts the rows of a buffer behind the first `at` characters.
fn put_rows(text: &mut [u8], at: usize, rows: &[u32]) -> usize
    requires { at + row_length * room (length rows.now) ≤ length text.old }
    ensures { Placed text.old at (each row_text (rows_in rows.now)) result text.new }
{
    let mut end = at;
    for i in 0..rows.len() / 4 {
        end = put_row(text, end, row_at(rows, i));
    }
    end
}

fn put_row(text: &mut [u8], at: usize, row: Row) -> usize
    requires { at + row_length ≤ length text.old }
    ensures { Placed text.old at (row_text row) result text.new }
{
    let unit = put_number(text, at, u64::from(row.kind));
    let channel = put_field(text, unit, b" ", u64::from(row.unit));
    let datum = put_field(text, channel, b" ", u64::from(row.channel));
    let end = put_field(text, datum, b" ", u64::from(row.datum));
    put_text(text, end, b"\n")
}
