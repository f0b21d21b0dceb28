// The calls. Before a call every lent element is 0xa5a5 (a word of 16 bits) or 0xa5a5a5a5 (a word of 32 bits, an element of a row).
ghost use Rattle.std.specs.Prelude.{◌≤◌, ◌≡◌, length};
ghost use Rattle.run_vectors.specs.Vectors.{most_elements};
ghost use Rattle.run_vectors.specs.Widths.{over_words};

use crate::output::Output;
use crate::vectors::{Call, MOST_ELEMENTS, Vector};
use dialects::Dialect;
use event::StampOrder;
use event::refusal::Refusal;
use event::words::Word;

// Puts out what the vector's call answered and left.
pub(crate) fn show(vector: Vector, elements: &[u32], output: &mut Output)
    requires { (vector.room ≤ most_elements) × (length elements.now ≤ most_elements) }
{
    let mut lent = [0xa5a5a5a5; MOST_ELEMENTS];
    let answer = run(vector, elements, &mut lent[..vector.room]);
    output.put_result(answer, &lent[..vector.room]);
}

// The vector's call on the elements that go in and those lent.
fn run(vector: Vector, elements: &[u32], lent: &mut [u32]) -> Result<usize, Refusal>
    requires { (length elements.now ≤ most_elements) × (length lent.old ≤ most_elements) }
{
    match vector.call {
        Call::Write => write(vector.dialect, elements, vector.order, lent),
        Call::Read => read(vector.dialect, elements, vector.order, lent),
    }
}

// As many words of 16 bits are lent beside the lent elements, which hold the words afterwards, also those of 16 bits.
fn write(
    dialect: Dialect,
    rows: &[u32],
    order: StampOrder,
    lent: &mut [u32],
) -> Result<usize, Refusal>
    requires { length lent.old ≤ most_elements }
{
    let room = lent.len();
    let mut words = [0xa5a5u16; MOST_ELEMENTS];
    let answer = any_dialect::write(dialect, rows, order, &mut words[..room], lent);
    if dialects::width(dialect) == 16 {
        convert(&words[..room], lent);
    }
    answer
}

// The elements are read as they are, or as words of 16 bits.
fn read(
    dialect: Dialect,
    elements: &[u32],
    order: StampOrder,
    rows: &mut [u32],
) -> Result<usize, Refusal>
    requires { length elements.now ≤ most_elements }
{
    let mut words = [0u16; MOST_ELEMENTS];
    convert(elements, &mut words);
    any_dialect::read(dialect, &words[..elements.len()], elements, order, rows)
}

// The low bits of each item, over the first words.
fn convert<A: Word, B: Word>(items: &[A], words: &mut [B])
    requires { length items.now ≤ length words.old }
    ensures { words.new ≡ over_words (λ item. B.of_number (A.number item)) items.now words.old }
{
    for i in 0..items.len() {
        words[i] = B::of_low_bits(items[i].to_number() as usize);
    }
}
