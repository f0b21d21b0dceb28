// Hexadecimal lines (document 01, 'The hexadecimal lines'): a line's characters as words; numbers and texts as characters in a lent buffer.
#![tactic(auto)]

mod line;
mod text;

pub use line::{LONGEST_LINE, number_at, words};
pub use text::{put_field, put_number, put_text};
