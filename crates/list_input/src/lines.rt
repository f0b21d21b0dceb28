// The lines that were read, listed as text in a lent buffer.
ghost use Rattle.std.specs.Prelude.{ℕ, ◌+◌, ◌-◌, ◌*◌, ◌≤◌, ◌<◌, true, ◌≡◌, length, take, drop};
ghost use Rattle.event.specs.Rows.{room};
ghost use Rattle.event.specs.Writing.{rows_in};
ghost use Rattle.hex_line.specs.Text.{Placed};
ghost use Rattle.listing.specs.declared.Next.TheVariants.{Line};
ghost use Rattle.listing.specs.Input.{next_of};
ghost use Rattle.listing.specs.Listing.{most_lines};
ghost use Rattle.listing.specs.Lengths.{answer_length, row_length, last_length, most_rows, most_text};
ghost use Rattle.listing.specs.Text.{event_text, last_text};
ghost use Rattle.list_input.specs.Run.{Inside, LineInside, rest_of, behind, answer_to, rows_to, LineListed, Kept, ends, paused, RestPut, MorePut, Halts};

use crate::{LineBuffers, Run};
use event::StampOrder;
use event::refusal::Refusal;
use listing::{LAST_LENGTH, MOST_TEXT, Next};

// A run, and what comes next of its input.
#[derive(Clone, Copy)]
struct Listed {
    run: Run,
    next: Next,
}

// Where a run stops: its text is put to the listing's end, there is little room left for text, or more of the input is needed.
#[derive(Clone, Copy, Debug, PartialEq, Eq)]
pub(crate) enum Stop {
    Over,
    Full,
    More,
}

#[derive(Clone, Copy)]
pub(crate) struct Put {
    pub run: Run,
    pub stop: Stop,
}

// Lists whole lines while there is room for their text, and says what comes next. (What a turn takes is known only once what comes next is.)
fn list_lines(
    order: StampOrder,
    input: &[u8],
    ended: bool,
    line: &mut LineBuffers,
    text: &mut [u8],
    run: Run,
) -> Listed
    requires inside { Inside (length input.now) (length text.old) run }
    ensures inside_2 { Inside (length input.now) (length text.old) result.run }
    ensures next_value { result.next ≡ next_of (rest_of result.run input.now) ended (result.run.accepted + result.run.refused) }
    ensures by_index { (k : ℕ) → result.next ≡ Line k → length text.old < result.run.at + most_text }
    ensures kept { Kept order ended input.now run text.old result.run text.new }
{
    let mut listed = run;
    loop {
        let next = next_line(input, ended, listed);
        let Next::Line(count) = next else {
            return Listed { run: listed, next };
        };
        if text.len() - listed.at < MOST_TEXT {
            return Listed { run: listed, next };
        }
        listed = list_line(order, input, count, line, text, listed);
    }
}

fn next_line(input: &[u8], ended: bool, run: Run) -> Next
    requires { Inside (length input.now) run.at run }
    ensures { result ≡ next_of (rest_of run input.now) ended (run.accepted + run.refused) }
{
    listing::next_line(&input[run.from..run.end], ended, run.accepted + run.refused)
}

// Lists the next `count` characters as a line, and goes on behind its line feed.
fn list_line(
    order: StampOrder,
    input: &[u8],
    count: usize,
    line: &mut LineBuffers,
    text: &mut [u8],
    run: Run,
) -> Run
    requires inside { Inside (length input.now) (length text.old) run }
    requires line_inside { LineInside count (length text.old) run }
    ensures inside_2 { Inside (length input.now) (length text.old) result }
    ensures line_listed { LineListed (answer_to order (take count (drop run.from input.now))) (rows_to order (take count (drop run.from input.now))) (behind run count) run text.old result text.new }
{
    let stop = run.from + count;
    let answer = listing::line_rows(
        &input[run.from..stop],
        order,
        &mut line.words,
        &mut line.longwords,
        &mut line.rows,
    );
    let elements = answer.unwrap_or(0) * 4;
    put_line(text, run, count, answer, &line.rows[..elements])
}

// Puts the answer for a line of `count` characters and its rows, and counts it.
fn put_line(
    text: &mut [u8],
    run: Run,
    count: usize,
    answer: Result<usize, Refusal>,
    rows: &[u32],
) -> Run
    requires line_inside { LineInside count (length text.old) run }
    requires rows_in_bounds { length rows.now ≤ 4 * most_rows }
    ensures { LineListed answer (rows_in rows.now) (behind run count) run text.old result text.new }
{
    Run {
        from: behind_line(run, count),
        end: run.end,
        at: put_event(text, run, answer, rows),
        accepted: run.accepted + u64::from(answer.is_ok()),
        refused: run.refused + u64::from(answer.is_err()),
    }
}

// The place behind the line and its line feed, which the last line may lack.
fn behind_line(run: Run, count: usize) -> usize
    requires { (run.from ≤ run.end) × (count ≤ run.end - run.from) }
    ensures { result ≡ behind run count }
{
    if run.end - run.from == count {
        run.end
    } else {
        run.from + count + 1
    }
}

// Puts the answer and the rows behind the text that is not written yet, and answers where it ends.
fn put_event(text: &mut [u8], run: Run, answer: Result<usize, Refusal>, rows: &[u32]) -> usize
    requires refused_bound { run.accepted + run.refused < most_lines }
    requires rows_in_bounds { run.at + (answer_length answer + row_length * room (length rows.now)) ≤ length text.old }
    ensures { Placed text.old run.at (event_text (run.accepted + run.refused + 1) answer (rows_in rows.now)) result text.new }
{
    let at = run.at;
    let number = run.accepted + run.refused + 1;
    at + listing::put_event(number, answer, rows, &mut text[at..])
}

// Lists what was read while there is room for its text, to the listing's end where that is reached and there is room for all that is left.
pub(crate) fn list_more(
    order: StampOrder,
    input: &[u8],
    ended: bool,
    line: &mut LineBuffers,
    text: &mut [u8],
    run: Run,
) -> Put
    requires inside { Inside (length input.now) (length text.old) run }
    ensures inside_2 { Inside (length input.now) (length text.old) result.run }
    ensures halts { Halts ended input.now (length text.old) result }
    ensures more_put { MorePut order ended input.now run text.old result text.new }
{
    let listed = list_lines(order, input, ended, line, text, run);
    let run = listed.run;
    let next = listed.next;
    if !is_end(next) {
        return Put {
            run,
            stop: pause(next),
        };
    }
    if text.len() - run.at < MOST_TEXT + LAST_LENGTH {
        return Put {
            run,
            stop: Stop::Full,
        };
    }
    let at = put_rest(order, input, ended, next, line, text, run);
    Put {
        run: Run { at, ..run },
        stop: Stop::Over,
    }
}

// A listing ends here.
fn is_end(next: Next) -> bool
    ensures { result ≡ ends next }
{
    matches!(next, Next::Long(_) | Next::End | Next::Cut)
}

// Why a run stops that is to go on.
fn pause(next: Next) -> Stop
    ensures { result ≡ paused next }
{
    match next {
        Next::More => Stop::More,
        _ => Stop::Full,
    }
}

// Puts all that is left of a listing that ends here, and answers where it ends.
fn put_rest(
    order: StampOrder,
    input: &[u8],
    ended: bool,
    next: Next,
    line: &mut LineBuffers,
    text: &mut [u8],
    run: Run,
) -> usize
    requires inside { Inside (length input.now) (length text.old) run }
    requires next_value { (next ≡ next_of (rest_of run input.now) ended (run.accepted + run.refused)) × (ends next ≡ true) }
    requires last_length_in_bounds { run.at + (most_text + last_length) ≤ length text.old }
    ensures upper_bound { result ≤ length text.old }
    ensures rest_put { RestPut order ended input.now run text.old result text.new }
{
    match next {
        Next::Long(count) => {
            let last = list_line(order, input, count, line, text, run);
            put_last(text, last, true)
        }
        Next::Cut => put_last(text, run, true),
        Next::End => put_last(text, run, false),
        Next::Line(_) | Next::More => unreachable!(),
    }
}

fn put_last(text: &mut [u8], run: Run, cut: bool) -> usize
    requires { run.at + last_length ≤ length text.old }
    ensures value { result ≡ run.at + last_length }
    ensures placed { Placed text.old run.at (last_text cut run.accepted run.refused) result text.new }
{
    let at = run.at;
    at + listing::put_last(cut, run.accepted, run.refused, &mut text[at..])
}
