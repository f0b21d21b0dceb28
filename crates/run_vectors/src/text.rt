// Text put into a lent buffer: each function answers where it ends.
ghost use Rattle.std.specs.Prelude.{◌+◌, ◌≤◌, ◌≡◌, length};
ghost use Rattle.hex_line.specs.Text.{Placed};
ghost use Rattle.run_vectors.specs.Text.{longest_text, run_text, count_text, refusal_text, answer_text};

use event::refusal::Refusal;
use event::refusal_number;
use hex_line::{put_field, put_number, put_text};

// The bytes of the longest line, that of a refusal.
pub(crate) const LONGEST_TEXT: usize = 32;

// `accepted COUNT` or `refused NUMBER place PLACE`.
pub(crate) fn put_answer(text: &mut [u8], at: usize, answer: Result<usize, Refusal>) -> usize
    requires { at + longest_text ≤ length text.old }
    ensures upper_bound { result ≤ at + longest_text }
    ensures placed { Placed text.old at (answer_text answer) result text.new }
{
    match answer {
        Ok(count) => put_count(text, at, count),
        Err(refusal) => put_refusal(text, at, refusal_number(answer), refusal.place),
    }
}

fn put_count(text: &mut [u8], at: usize, count: usize) -> usize
    requires { at + longest_text ≤ length text.old }
    ensures upper_bound { result ≤ at + longest_text }
    ensures placed { Placed text.old at (count_text count) result text.new }
{
    let end = put_field(text, at, b"accepted ", count as u64);
    put_text(text, end, b"\n")
}

fn put_refusal(text: &mut [u8], at: usize, number: u32, place: usize) -> usize
    requires { at + longest_text ≤ length text.old }
    ensures value { result ≡ at + longest_text }
    ensures placed { Placed text.old at (refusal_text number place) result text.new }
{
    let middle = put_field(text, at, b"refused ", number as u64);
    let end = put_field(text, middle, b" place ", place as u64);
    put_text(text, end, b"\n")
}

// `REPEAT WORD`.
pub(crate) fn put_run(text: &mut [u8], at: usize, times: usize, word: u32) -> usize
    requires { at + longest_text ≤ length text.old }
    ensures upper_bound { result ≤ at + longest_text }
    ensures placed { Placed text.old at (run_text times word) result text.new }
{
    let middle = put_number(text, at, times as u64);
    let end = put_field(text, middle, b" ", word as u64);
    put_text(text, end, b"\n")
}
