// What the line programs share: lists the hexadecimal lines of standard input (document 01, 'The hexadecimal lines') on standard output, in the stamp order that a
// program gives. A line is listed as soon as it was read, and what is listed is written before more is waited for. A write that fails ends the listing at once. A
// read that fails ends it without a last line.
#![tactic(auto)]

mod lines;
mod streams;

ghost use Rattle.std.specs.Prelude.{◌≡◌, take};
ghost use Rattle.list_input.specs.Turns.{ListedByTurns};

use event::StampOrder;
use hex_line::LONGEST_LINE;
use std::io::{Stdin, Stdout};
use streams::turn;

// The characters of the input, and of the text, that are held at a time.
pub const BUFFER: usize = 262144;

// The most words of a line that is not too long, and the elements of as many rows.
pub const MOST_WORDS: usize = (LONGEST_LINE - 1) / 5;

pub const MOST_LONGWORDS: usize = (LONGEST_LINE - 1) / 9;

pub const MOST_ELEMENTS: usize = 4 * MOST_WORDS;

// The buffers for a line: its words, of either width, and the elements of its rows.
#[derive(Drop)]
pub struct LineBuffers {
    pub words: [u16; MOST_WORDS],
    pub longwords: [u32; MOST_LONGWORDS],
    pub rows: [u32; MOST_ELEMENTS],
}

// The buffers that a listing works in.
#[derive(Drop)]
pub struct Buffers {
    pub input: [u8; BUFFER],
    pub line: LineBuffers,
    pub text: [u8; BUFFER],
}

// Where a run stands: input[from..end] was read and is not listed yet, text[..at] was put last, and so many lines were listed. (That it stands within its buffers is
// said in contracts, `Inside`: it needs their lengths, and the laws compare whole runs, which no proof may stand in. A ghost field would be no plainer.)
#[derive(Clone, Copy, Default)]
struct Run {
    from: usize,
    end: usize,
    at: usize,
    accepted: u64,
    refused: u64,
}

// A run after a turn: whether its input has ended, and whether its text was put to the listing's end.
#[derive(Clone, Copy, Default)]
struct Turn {
    run: Run,
    ended: bool,
    over: bool,
}

// How a listing ended: its stamp order, how many characters of the text were put last, and whether all of the listing was put and written; it was not where a read
// or a write failed. Its fields are private, so that no other crate can make one: whoever has it has called `list`. (`whole` stays a flag: `ListedByTurns` speaks of it.)
#[derive(Clone, Copy)]
pub struct Ended {
    order: StampOrder,
    put: usize,
    whole: bool,
}

// Lists standard input. The buffers' contents before the call do not matter. (After as many turns as a 64-bit number counts a listing stops too: `NotWhole`.)
pub fn list(stdin: Stdin, stdout: Stdout, order: StampOrder, buffers: &mut Buffers) -> Ended
    ensures { (result.order ≡ order) × ListedByTurns order result.whole (take result.put buffers.new.text) }
{
    let mut state = Turn::default();
    for _turn in 0..u64::MAX {
        state = match turn(stdin, stdout, order, buffers, state) {
            Ok(next) => next,
            Err(stopped) => return ending(order, stopped.run, false),
        };
        if state.over {
            return ending(order, state.run, true);
        }
    }
    ending(order, state.run, false)
}

fn ending(order: StampOrder, run: Run, whole: bool) -> Ended
    ensures { result ≡ record { order = order; put = run.at; whole = whole } }
{
    Ended {
        order,
        put: run.at,
        whole,
    }
}
