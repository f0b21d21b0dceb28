// The listing of hexadecimal lines (document 01, 'The hexadecimal lines'): the rows of a line, what is listed as text, and what comes next of an input.
#![tactic(auto)]

mod input;
mod rows;
mod text;

pub use input::{first_line, next_line};
pub use rows::{dialect_of_line, line_rows};
pub use text::{LAST_LENGTH, MOST_TEXT, put_event, put_last};

// What comes next of the characters that are not listed yet.
#[derive(Clone, Copy, Debug, PartialEq, Eq)]
pub enum Next {
    // A line of so many characters. Its line feed follows, or the input ends.
    Line(usize),
    // So many characters of a line that is too long.
    Long(usize),
    // More of the input is needed.
    More,
    // The input has ended.
    End,
    // As many lines were listed as may be, and more follow.
    Cut,
}
