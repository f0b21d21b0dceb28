// Runs the writings and the readings of every dialect on test vectors from standard input and prints what they answered and
// the lent elements afterwards. The vectors and the expected output come from the independent second reader (`second/`).
// At a malformed or incomplete vector it prints `malformed` and ends. It reads at most 2 MiB; in a vector at most 16,800 elements
// go in, and at most 16,800 are lent.
#![tactic(auto)]

mod calls;
mod lines;
mod output;
mod text;
mod vectors;

ghost use Rattle.std.specs.Prelude.{◌≤◌, ◌<◌, length};
ghost use Rattle.run_vectors.specs.Vectors.{most_elements};

use output::Output;
use std::io::{Read, Stdin};
use vectors::{MOST_ELEMENTS, read_vector};

// Shows the vector at `place`, and answers the place of the next. At a malformed one it prints `malformed` and goes to the input's end.
fn show_vector(input: &[u8], place: usize, elements: &mut [u32], output: &mut Output) -> usize
    requires { (place < length input.now) × (length elements.old ≤ most_elements) }
    ensures { (place < result) × (result ≤ length input.now) }
{
    let Some(vector) = read_vector(input, place, elements) else {
        output.put_malformed();
        return input.len();
    };
    calls::show(vector, &elements[..vector.elements], output);
    vector.next
}

// A vector's length is known only once it is read.
fn show_all(input: &[u8], elements: &mut [u32], output: &mut Output)
    requires { length elements.old ≤ most_elements }
{
    let mut place = 0;
    while place < input.len() {
        place = show_vector(input, place, elements, output);
    }
    output.write();
}

// Reads until `input` is full, the input ends or a read fails, and answers how many bytes came. (How many come at once is known only once they are read.)
fn read_full(mut stdin: Stdin, input: &mut [u8]) -> usize
    ensures { result ≤ length input.new }
{
    let mut done = 0;
    while done < input.len() {
        let Ok(count) = stdin.read(&mut input[done..]) else {
            break;
        };
        if count == 0 {
            break;
        }
        done += count;
    }
    done
}

fn show_input(stdin: Stdin, input: &mut [u8], elements: &mut [u32], output: &mut Output)
    requires { length elements.old ≤ most_elements }
{
    let count = read_full(stdin, input);
    show_all(&input[..count], elements, output);
}

fn main(rt: HostRuntime) {
    let mut input = [0u8; 2097152];
    let mut elements = [0u32; MOST_ELEMENTS];
    let mut output = Output::new(rt.stdout());
    show_input(rt.stdin(), &mut input, &mut elements, &mut output);
}
