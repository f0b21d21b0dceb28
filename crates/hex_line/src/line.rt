// A line's characters as words: first the whole line is tested, then its words are stored, so that a refused line stores nothing.
ghost use Rattle.std.specs.Prelude.{◌+◌, ◌*◌, ◌≤◌, ◌≡◌, length};
ghost use Rattle.event.specs.Outcome.{answer_of, given, in_word_room};
ghost use Rattle.dialects.specs.Dialects.{of_width, over16, over32};
ghost use Rattle.hex_line.specs.Line.{letter, is_digit, digit_of, value_of, number_at, all_digits, all_groups, well_formed, overlaid_by, group_words, line_into};

use crate::text::has_room;
use dialects::Dialect;
use event::refusal::{Fault, Refusal, refuse};
use event::words::Word;

// The most characters of a line.
pub const LONGEST_LINE: usize = 20481;

// The words of a line of a dialect, in the buffer of their width: the other stays as it was.
pub fn words(
    dialect: Dialect,
    line: &[u8],
    words: &mut [u16],
    longwords: &mut [u32],
) -> Result<usize, Refusal>
    ensures answer { result ≡ answer_of (line_into dialect (length (of_width dialect words.old longwords.old)) line.now) }
    ensures words { words.new ≡ over16 dialect (given (line_into dialect (length (of_width dialect words.old longwords.old)) line.now)) words.old }
    ensures longwords { longwords.new ≡ over32 dialect (given (line_into dialect (length (of_width dialect words.old longwords.old)) line.now)) longwords.old }
{
    if dialects::width(dialect) == 16 {
        return fill(line, letter(dialect), 4, words);
    }
    fill(line, letter(dialect), 8, longwords)
}

// The number of the eight digits from `at` on, 0 where fewer than eight characters stand there.
pub fn number_at(text: &[u8], at: usize) -> u32
    ensures { result ≡ number_at text.now at }
{
    if !has_room(text.len(), at, 8) {
        return 0;
    }
    value(text, at, 8)
}

// The letter that a line of the dialect begins with.
fn letter(dialect: Dialect) -> u8
    ensures { result ≡ letter dialect }
{
    match dialect {
        Dialect::S => b'S',
        Dialect::F => b'F',
        Dialect::R => b'R',
    }
}

// The words of so many digits each behind a letter.
fn fill<W: Word>(line: &[u8], letter: u8, digits: usize, words: &mut [W]) -> Result<usize, Refusal>
    requires { digits ≤ 8 }
    ensures answer { result ≡ answer_of (in_word_room (length words.old) (group_words letter digits line.now)) }
    ensures buffer { words.new ≡ overlaid_by W.of_number (given (in_word_room (length words.old) (group_words letter digits line.now))) words.old }
{
    let count = count_words(line, letter, digits, words.len())?;
    for i in 0..count {
        words[i] = W::of_low_bits(value(line, 2 + (digits + 1) * i, digits) as usize);
    }
    Ok(count)
}

// How many words of so many digits stand behind the letter, where there is room for them.
fn count_words(line: &[u8], letter: u8, digits: usize, room: usize) -> Result<usize, Refusal>
    requires { digits ≤ 8 }
    ensures { result ≡ answer_of (in_word_room room (group_words letter digits line.now)) }
{
    if !well_formed(line, letter, digits) {
        return refuse(Fault::Line, 0);
    }
    let count = (line.len() - 1) / (digits + 1);
    if room < count {
        return refuse(Fault::Words, count);
    }
    Ok(count)
}

fn well_formed(line: &[u8], letter: u8, digits: usize) -> bool
    requires { digits ≤ 8 }
    ensures { result ≡ well_formed letter digits line.now }
{
    if line.is_empty() || LONGEST_LINE < line.len() || line[0] != letter {
        return false;
    }
    let behind = line.len() - 1;
    behind % (digits + 1) == 0 && all_groups(line, 1, digits, behind / (digits + 1))
}

// `count` times a space and the digits of a word stand from `at` on.
fn all_groups(line: &[u8], at: usize, digits: usize, count: usize) -> bool
    requires { (digits ≤ 8) × (at + (digits + 1) * count ≤ length line.now) }
    ensures { result ≡ all_groups digits line.now at count }
{
    for i in 0..count {
        let group = at + (digits + 1) * i;
        if line[group] != b' ' || !all_digits(line, group + 1, digits) {
            return false;
        }
    }
    true
}

fn all_digits(line: &[u8], at: usize, count: usize) -> bool
    requires { at + count ≤ length line.now }
    ensures { result ≡ all_digits line.now at count }
{
    line[at..at + count]
        .iter()
        .all(|character| is_digit(*character))
}

#[tactic(auto, unfolding(crate::specs::Line::is_digit))]
fn is_digit(character: u8) -> bool
    ensures { result ≡ is_digit character }
{
    matches!(character, b'0'..=b'9' | b'a'..=b'f')
}

// The value of so many digits from `at` on.
fn value(line: &[u8], at: usize, digits: usize) -> u32
    requires { (digits ≤ 8) × (at + digits ≤ length line.now) }
    ensures { result ≡ value_of line.now at digits }
{
    let mut value: u32 = 0;
    for i in 0..digits {
        value = value * 16 + digit(line[at + i]);
    }
    value
}

// The value of a digit.
#[tactic(auto, unfolding(crate::specs::Line::digit_of))]
fn digit(character: u8) -> u32
    ensures { result ≡ digit_of character }
{
    let code = u32::from(character);
    if character <= b'9' {
        code % 16
    } else {
        (code + 9) % 16
    }
}
