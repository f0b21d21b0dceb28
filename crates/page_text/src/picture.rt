// The pictures of the connectors, as text in a lent buffer: each function answers where its text ends.
ghost use Rattle.std.specs.Prelude.{◌+◌, ◌≤◌, ◌<◌, ◌≡◌, [], ◌∷◌, length};
ghost use Rattle.hex_line.specs.Text.{Placed};
ghost use Rattle.page_text.specs.Text.{least_of, mark, marks_text, row_text, rows_text, picture_text, pictures_text};

use crate::Counts;
use crate::counts::Connector;
use hex_line::{put_field, put_number, put_text};

// The channels of a connector.
const CHANNELS: usize = 64;

// Puts the pictures of all connectors.
pub(crate) fn put_pictures(text: &mut [u8], at: usize, counts: &Counts, most: u32) -> usize
    requires { at + length (pictures_text counts.now most) ≤ length text.old }
    ensures { Placed text.old at (pictures_text counts.now most) result text.new }
{
    let mut end = at;
    for number in 0..4 {
        end = put_picture(text, end, &Connector { counts, number }, most);
    }
    end
}

// Puts the picture of a connector.
fn put_picture(text: &mut [u8], at: usize, connector: &Connector, most: u32) -> usize
    requires { at + length (picture_text connector.now.counts.now most connector.now.number) ≤ length text.old }
    ensures { Placed text.old at (picture_text connector.now.counts.now most connector.now.number) result text.new }
{
    let head = put_field(text, at, b"connector ", connector.number as u64);
    let rows = put_text(text, head, b"\n");
    let end = put_rows(text, rows, connector, most);
    put_text(
        text,
        end,
        b"channel   0       8       10      18      20      28      30      38\n",
    )
}

// Puts the rows of a connector's picture, the highest first.
fn put_rows(text: &mut [u8], at: usize, connector: &Connector, most: u32) -> usize
    requires { at + length (rows_text connector.now.counts.now most connector.now.number) ≤ length text.old }
    ensures { Placed text.old at (rows_text connector.now.counts.now most connector.now.number) result text.new }
{
    let mut end = at;
    for row in 0..8 {
        end = put_row(text, end, connector, least_of(most, 7 - row));
    }
    end
}

// The least count of a mark in row i.
fn least_of(most: u32, i: usize) -> u64
    requires { i < 8 }
    ensures { result ≡ least_of most i }
{
    u64::from(most) * i as u64 / 8 + 1
}

// Puts a row: its least count, and a mark for each channel of the connector.
fn put_row(text: &mut [u8], at: usize, connector: &Connector, least: u64) -> usize
    requires { at + length (row_text connector.now.counts.now connector.now.number least) ≤ length text.old }
    ensures { Placed text.old at (row_text connector.now.counts.now connector.now.number least) result text.new }
{
    let bar = put_number(text, at, least);
    let marks = put_text(text, bar, b" |");
    let end = put_marks(text, marks, connector, least);
    put_text(text, end, b"|\n")
}

// Puts the marks of a connector's channels.
fn put_marks(text: &mut [u8], at: usize, connector: &Connector, least: u64) -> usize
    requires { at + length (marks_text connector.now.counts.now connector.now.number least) ≤ length text.old }
    ensures { Placed text.old at (marks_text connector.now.counts.now connector.now.number least) result text.new }
{
    for channel in 0..CHANNELS {
        text[at + channel] = mark(least, connector.count(channel));
    }
    at + CHANNELS
}

// The mark of a count in a row.
#[tactic(auto, unfolding(crate::specs::Text::mark))]
fn mark(least: u64, count: u32) -> u8
    ensures { result ∷ [] ≡ mark least count }
{
    if least <= u64::from(count) {
        b'#'
    } else {
        b' '
    }
}
