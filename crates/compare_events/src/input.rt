// Standard input, up to the end of its second line.
ghost use Rattle.std.specs.Prelude.{◌+◌, ◌<◌, ◌≤◌, ◌≡◌, false, length, IfSome};
ghost use Rattle.compare_events.specs.Run.{feeds_in, after_read, Inside, goes_on};

use std::io::{Read, Stdin};

// How many characters were read, and how many line feeds are among them; how many the last read gave, none where the input has ended.
#[derive(Clone, Copy, Debug, PartialEq, Eq)]
pub struct Gathered {
    pub end: usize,
    pub feeds: usize,
    pub last: usize,
}

// Reads up to the second line feed, the end of the input or that of the buffer: behind a line that is too long too, which only two line feeds end. None where a
// read fails.
pub(crate) fn gather(stdin: Stdin, input: &mut [u8]) -> Option<Gathered>
    ensures { IfSome result (λ state. Inside input.new state × (goes_on state (length input.old) ≡ false)) }
{
    let mut state = Gathered {
        end: 0,
        feeds: 0,
        last: 1,
    };
    // A `while`: how much a read gives is known only once it is made.
    while goes_on(state, input.len()) {
        state = read_more(stdin, input, state)?;
    }
    Some(state)
}

// More is to be read: the last read gave something, two lines are not whole yet, and there is room.
fn goes_on(state: Gathered, room: usize) -> bool
    ensures { result ≡ goes_on state room }
{
    state.last != 0 && state.feeds <= 1 && state.end < room
}

// Reads behind what was read, once.
fn read_more(mut stdin: Stdin, input: &mut [u8], state: Gathered) -> Option<Gathered>
    requires { Inside input.old state }
    ensures { IfSome result (λ next. Inside input.new next × (next.end ≡ state.end + next.last)) }
{
    let end = state.end;
    let got = stdin.read(&mut input[end..]).ok();
    after_read(state, got, &input[end..])
}

// After a read into `part`, which gave so many characters: none at the end of the input. Where it failed there is no more to go on with.
fn after_read(state: Gathered, got: Option<usize>, part: &[u8]) -> Option<Gathered>
    requires { (state.feeds ≤ state.end) × (state.end + length part.now < 18446744073709551616) × IfSome got (λ count. count ≤ length part.now) }
    ensures { result ≡ after_read state got part.now }
{
    let count = got?;
    Some(Gathered {
        end: state.end + count,
        feeds: state.feeds + count_feeds(&part[..count]),
        last: count,
    })
}

fn count_feeds(part: &[u8]) -> usize
    ensures { (result ≡ feeds_in part.now) × (result ≤ length part.now) }
{
    part.iter().filter(|character| **character == b'\n').count()
}
