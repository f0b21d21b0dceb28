// Numbers and texts as characters in a lent buffer. Each is put where the buffer has room for all of it behind `at`, and where it ends is answered;
// else nothing is put, and `at` answered. (A struct of the buffer and `at` would have to say in each contract that it still lends that buffer: no plainer.)
ghost use Rattle.std.specs.Prelude.{◌+◌, ◌<◌, ◌≤◌, ◌≡◌, leb, length};
ghost use Rattle.std.proofs.lemmas.List.Edits.{sets};
ghost use Rattle.hex_line.specs.Text.{character, hex_of, field, put, end_of};

// Puts a text at `at`.
pub fn put_text(buffer: &mut [u8], at: usize, text: &[u8]) -> usize
    ensures end { result ≡ end_of buffer.old at text.now }
    ensures buffer { buffer.new ≡ put buffer.old at text.now }
{
    if !has_room(buffer.len(), at, text.len()) {
        return at;
    }
    let end = at + text.len();
    buffer[at..end].copy_from_slice(text);
    end
}

// Puts the last eight hexadecimal digits of a number at `at`.
pub fn put_number(buffer: &mut [u8], at: usize, number: u64) -> usize
    ensures end { result ≡ end_of buffer.old at (hex_of 8 number) }
    ensures buffer { buffer.new ≡ put buffer.old at (hex_of 8 number) }
{
    if !has_room(buffer.len(), at, 8) {
        return at;
    }
    store_digits(buffer, at, number);
    at + 8
}

// Puts a label and a number behind it at `at`.
pub fn put_field(buffer: &mut [u8], at: usize, label: &[u8], number: u64) -> usize
    ensures end { result ≡ end_of buffer.old at (field label.now number) }
    ensures buffer { buffer.new ≡ put buffer.old at (field label.now number) }
{
    if !has_room(buffer.len(), at, 8) || buffer.len() - at - 8 < label.len() {
        return at;
    }
    let behind = put_text(buffer, at, label);
    put_number(buffer, behind, number)
}

// Whether `count` characters from `at` on are within `length`.
pub(crate) fn has_room(length: usize, at: usize, count: usize) -> bool
    ensures { result ≡ leb (at + count) length }
{
    at <= length && count <= length - at
}

fn store_digits(buffer: &mut [u8], at: usize, number: u64)
    requires { at + 8 ≤ length buffer.old }
    ensures { buffer.new ≡ sets buffer.old at (hex_of 8 number) }
{
    for i in 0..8 {
        buffer[at + i] = digit((number >> (4 * (7 - i))) % 16);
    }
}

// The character of a digit.
#[tactic(auto, unfolding(crate::specs::Text::character))]
fn digit(value: u64) -> u8
    requires { value < 16 }
    ensures { result ≡ character value }
{
    if value < 10 {
        b'0' + value as u8
    } else {
        b'a' - 10 + value as u8
    }
}
