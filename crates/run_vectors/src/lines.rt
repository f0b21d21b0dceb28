// A line of the input, 45 bytes: five numbers of eight lower-case hexadecimal digits, a space after each of the first four,
// a line feed after the fifth. There is none where it is cut off, or lacks a space or its line feed; a character that is no such digit
// counts as `digit_of` (hex_line) gives it.
ghost use Rattle.std.specs.Prelude.{◌+◌, ◌≤◌, ◌≡◌, length};
ghost use Rattle.run_vectors.specs.Lines.{line_bytes, numbers_at, separated_at, line_at, LineWithin};

use hex_line::number_at;

// The bytes of a line.
pub(crate) const LINE_BYTES: usize = 45;

#[derive(Clone, Copy)]
pub struct Numbers {
    pub first: u32,
    pub second: u32,
    pub third: u32,
    pub fourth: u32,
    pub fifth: u32,
}

// The numbers of the line at `place`.
#[tactic(auto, using(crate::proofs::Tests::tests), unfolding(crate::specs::Lines::line_at))]
pub(crate) fn read_line(input: &[u8], place: usize) -> Option<Numbers>
    requires { place ≤ length input.now }
    ensures value { result ≡ line_at input.now place }
    ensures line_within { LineWithin (length input.now) place result }
{
    if input.len() - place < LINE_BYTES || !separated(input, place) {
        return None;
    }
    Some(five_numbers(input, place))
}

// Whether the spaces and the line feed stand where they must.
#[tactic(auto, using(crate::proofs::Tests::tests), unfolding(crate::specs::Lines::separated_at))]
fn separated(input: &[u8], place: usize) -> bool
    requires { place + line_bytes ≤ length input.now }
    ensures { result ≡ separated_at input.now place }
{
    input[place + 8] == b' '
        && input[place + 17] == b' '
        && input[place + 26] == b' '
        && input[place + 35] == b' '
        && input[place + 44] == b'\n'
}

fn five_numbers(input: &[u8], place: usize) -> Numbers
    requires { place + line_bytes ≤ length input.now }
    ensures { result ≡ numbers_at input.now place }
{
    Numbers {
        first: number_at(input, place),
        second: number_at(input, place + 9),
        third: number_at(input, place + 18),
        fourth: number_at(input, place + 27),
        fifth: number_at(input, place + 36),
    }
}
