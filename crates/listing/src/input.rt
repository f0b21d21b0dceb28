// What comes next of an input that is listed while it comes in.
ghost use Rattle.std.specs.Prelude.{◌≡◌};
ghost use Rattle.listing.specs.Input.{first_line, next_of};

use crate::Next;
use hex_line::LONGEST_LINE;

// The most lines that are listed.
const MOST_LINES: u64 = 1000000;

// What comes next of `rest`, where the input has ended or goes on, after so many lines.
#[tactic(auto, unfolding(crate::specs::Input::next_of))]
pub fn next_line(rest: &[u8], ended: bool, lines: u64) -> Next
    ensures { result ≡ next_of rest.now ended lines }
{
    if rest.is_empty() {
        return if ended { Next::End } else { Next::More };
    }
    if MOST_LINES <= lines {
        return Next::Cut;
    }
    let count = first_line(rest);
    if LONGEST_LINE < count {
        Next::Long(count)
    } else if ended || count < rest.len() {
        Next::Line(count)
    } else {
        Next::More
    }
}

// How many characters stand before the first line feed, or all where there is none.
pub fn first_line(rest: &[u8]) -> usize
    ensures { result ≡ first_line rest.now }
{
    let feed = rest.iter().position(|character| *character == b'\n');
    feed.unwrap_or(rest.len())
}
