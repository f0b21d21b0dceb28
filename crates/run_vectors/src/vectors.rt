// A vector of the input: a head line `CALL ORDER ROOM CUT RUNS`, then a line `REPEAT A B C D` for each run of the elements that go in:
// the four elements A B C D, so many times. The last CUT elements are left out. The elements are those of rows for a writing, and words
// for a reading; each four of them are stored as a row is. CALL / 3: 0 = write, 1 = read; CALL % 3, the dialect: 0 = S, 1 = F, 2 = R.
// ORDER: 0 = crossed, 1 = rising.
ghost use Rattle.std.specs.Prelude.{◌+◌, ◌/◌, ◌≤◌, ◌≡◌, length, replicate};
ghost use Rattle.event.specs.Scanning.{store_rows};
ghost use Rattle.run_vectors.specs.Vectors.{call_of, head_holds, all_words16, suits, row_of, expansion, vector_of, vector_at, RowsWithin, VectorWithin};

use crate::lines::{LINE_BYTES, Numbers, read_line};
use dialects::Dialect;
use event::rows::store_row;
use event::{Row, StampOrder};

// The most elements that go in, and the most that are lent.
pub(crate) const MOST_ELEMENTS: usize = 16800;
// How many dialects there are: CALL / DIALECTS is the call, CALL % DIALECTS the dialect.
const DIALECTS: u32 = 3;

#[derive(Clone, Copy, Debug, PartialEq, Eq)]
pub enum Call {
    Write,
    Read,
}

// The call of a number: 0 is a writing, any other a reading.
impl From<u32> for Call {
    ghost from_gives = { λ number call. call ≡ call_of number };

    fn from(number: u32) -> Call {
        match number {
            0 => Call::Write,
            _ => Call::Read,
        }
    }
}

// What is called, and with what: the stamp order, how many elements are lent, and how many go in. The next vector stands at `next`.
#[derive(Clone, Copy)]
pub struct Vector {
    pub call: Call,
    pub dialect: Dialect,
    pub order: StampOrder,
    pub room: usize,
    pub elements: usize,
    pub next: usize,
}

// How many rows the runs stored, and the place after the last run.
#[derive(Clone, Copy)]
pub struct Rows {
    pub count: usize,
    pub next: usize,
}

// The vector at `place`, with its elements in `elements`. There is none where a line is malformed, where its head has an unknown call or
// order or too much room, where there are more elements than room for them or fewer than are cut, or where its call does not take them.
pub(crate) fn read_vector(input: &[u8], place: usize, elements: &mut [u32]) -> Option<Vector>
    requires { place ≤ length input.now }
    ensures elements_after { (result, elements.new) ≡ vector_at input.now place elements.old }
    ensures vector_within { VectorWithin (length input.now) (length elements.old) place result }
{
    let head = read_line(input, place)?;
    if !head_holds(head) {
        return None;
    }
    let rows = expand(input, place + LINE_BYTES, head.fifth as usize, elements)?;
    vector_of(head, elements, rows.count * 4, rows.next)
}

// There are such a call and such an order, and the room is no larger than what can be lent.
#[tactic(auto, using(crate::proofs::Tests::tests), unfolding(crate::specs::Vectors::head_holds))]
fn head_holds(head: Numbers) -> bool
    ensures { result ≡ head_holds head }
{
    head.first / DIALECTS <= 1 && head.second <= 1 && head.third as usize <= MOST_ELEMENTS
}

// The vector of a head that holds, with the elements of its runs, `all` of them before the last are cut.
fn vector_of(head: Numbers, elements: &[u32], all: usize, next: usize) -> Option<Vector>
    requires { all ≤ length elements.now }
    ensures { result ≡ vector_of head elements.now all next }
{
    let cut = head.fourth as usize;
    if all < cut {
        return None;
    }
    let count = all - cut;
    let call = Call::from(head.first / DIALECTS);
    let dialect = Dialect::from(head.first % DIALECTS);
    if !suits(call, dialect, &elements[..count]) {
        return None;
    }
    Some(Vector {
        call,
        dialect,
        order: StampOrder::from(head.second),
        room: head.third as usize,
        elements: count,
        next,
    })
}

// Whether a call takes these elements: a reading takes words of its dialect's width, and a writing any.
#[tactic(auto, using(crate::proofs::Tests::tests))]
fn suits(call: Call, dialect: Dialect, elements: &[u32]) -> bool
    ensures { result ≡ suits call dialect elements.now }
{
    match call {
        Call::Write => true,
        Call::Read => dialects::width(dialect) != 16 || all_words16(elements),
    }
}

fn all_words16(elements: &[u32]) -> bool
    ensures { result ≡ all_words16 elements.now }
{
    for element in elements {
        if 0xffff < *element {
            return false;
        }
    }
    true
}

// Stores the rows of so many runs, whose lines stand from `place` on.
fn expand(input: &[u8], place: usize, runs: usize, elements: &mut [u32]) -> Option<Rows>
    requires { place ≤ length input.now }
    ensures elements_after { (result, elements.new) ≡ expansion input.now (length elements.old / 4) place 0 runs elements.old }
    ensures rows_within { RowsWithin (length input.now) (length elements.old / 4) place result }
{
    let most = elements.len() / 4;
    let mut next = place;
    let mut count = 0;
    for _ in 0..runs {
        let run = read_line(input, next)?;
        let times = run.first as usize;
        if most - count < times {
            return None;
        }
        repeat_row(elements, count, times, Row::from(run));
        count += times;
        next += LINE_BYTES;
    }
    Some(Rows { count, next })
}

// Stores a row so many times, from row `at` on.
fn repeat_row(elements: &mut [u32], at: usize, times: usize, row: Row)
    requires { at + times ≤ length elements.old / 4 }
    ensures { elements.new ≡ store_rows elements.old at (replicate times row) }
{
    for next in at..at + times {
        store_row(elements, next, row);
    }
}

// The row of a run's line.
impl From<Numbers> for Row {
    ghost from_gives = { λ run row. row ≡ row_of run };

    fn from(run: Numbers) -> Row {
        Row {
            kind: run.second,
            unit: run.third,
            channel: run.fourth,
            datum: run.fifth,
        }
    }
}
