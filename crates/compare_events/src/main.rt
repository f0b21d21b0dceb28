// Compares the events of the first two hexadecimal lines of standard input (document 02, #104), with the default stamp order, and prints what differs. What follows
// the second line is not waited for. Where a read fails nothing is printed.
#![tactic(auto)]

mod input;
mod line_word;
mod lines;
mod side;
mod text;

ghost use Rattle.std.specs.Prelude.{◌≤◌, ◌≡◌, false, length};
ghost use Rattle.event.specs.Outcome.{default_order};
ghost use Rattle.compare_events.specs.Lengths.{most_input, most_text};
ghost use Rattle.compare_events.specs.Run.{Inside, goes_on, PrintPut};

use dialects::LARGEST_ROWS;
use event::StampOrder;
use hex_line::LONGEST_LINE;
use input::{Gathered, gather};
use lines::put_print;
use std::io::{Stdin, Stdout, Write};

// The characters of two lines that are not too long, with their line feeds.
const MOST_INPUT: usize = 2 * (LONGEST_LINE + 1);

// The most words of a line that is not too long.
const MOST_WORDS: usize = (LONGEST_LINE - 1) / 5;

const MOST_LONGWORDS: usize = (LONGEST_LINE - 1) / 9;

// The most characters that are printed: two refusals, 39 each, differing words, 45 each, differing rows, 112 each, and the last line, 47.
const MOST_TEXT: usize = 2 * 39 + 45 * MOST_WORDS + 112 * LARGEST_ROWS + 47;

// The numbers of the largest word list, and of the largest row list.
const WORD_NUMBERS: usize = 3 * MOST_WORDS;

const ROW_NUMBERS: usize = 9 * LARGEST_ROWS;

// Compares in the default stamp order: no order is given to this program.
fn compare_input(
    stdin: Stdin,
    mut stdout: Stdout,
    order: StampOrder,
    input: &mut [u8],
    text: &mut [u8],
)
    requires order_value { order ≡ default_order }
    requires input_len { (length input.old ≡ most_input) × (most_text ≤ length text.old) }
{
    let Some(gathered) = gather(stdin, input) else {
        return;
    };
    let count = put_gathered(order, input, gathered, text);
    let _ = stdout.write_all(&text[..count]);
}

// Puts what is printed of the input at the front: of what was read, and so of all of it, whatever comes later.
fn put_gathered(order: StampOrder, input: &[u8], gathered: Gathered, text: &mut [u8]) -> usize
    requires order_value { order ≡ default_order }
    requires input_len { (length input.now ≡ most_input) × (most_text ≤ length text.old) }
    requires inside { Inside input.now gathered × (goes_on gathered (length input.now) ≡ false) }
    ensures upper_bound { result ≤ length text.old }
    ensures print_put { PrintPut default_order input.now gathered result text.new }
{
    let end = gathered.end;
    put_print(order, &input[..end], text)
}

fn main(rt: HostRuntime) {
    let mut input = [0u8; MOST_INPUT];
    let mut text = [0u8; MOST_TEXT];
    compare_input(
        rt.stdin(),
        rt.stdout(),
        StampOrder::default(),
        &mut input,
        &mut text,
    );
}
