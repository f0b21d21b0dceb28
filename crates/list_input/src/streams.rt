// Standard input and output of a run.
ghost use Rattle.std.specs.Prelude.{◌+◌, ◌-◌, ◌<◌, ◌≤◌, ◌≡◌, true, false, eqb, length, take, unwrap_or, Err};
ghost use Rattle.std.specs.Option.{is_none};
ghost use Rattle.list_input.specs.Run.{Inside, anew, rest_of, is_over, turn_of, failed, point_of, Fed};
ghost use Rattle.list_input.specs.Turns.{SomeTurn};
ghost use Rattle.list_input.specs.declared.lines.Stop.TheVariants.{More};

use crate::lines::{Put, Stop, list_more};
use crate::{Buffers, Run, Turn};
use event::StampOrder;
use std::io::{Read, Stdin, Stdout, Write};

// Lists what was read, writes what is listed, and then reads more where it is needed. An `Err` is the turn at which a read or a write failed.
pub(crate) fn turn(
    stdin: Stdin,
    mut stdout: Stdout,
    order: StampOrder,
    buffers: &mut Buffers,
    state: Turn,
) -> Result<Turn, Turn>
    requires inside { Inside (length buffers.old.input) (length buffers.old.text) state.run × (state.over ≡ false) }
    ensures inside_2 { Inside (length buffers.new.input) (length buffers.new.text) (turn_of result).run }
    ensures some_turn { SomeTurn order (point_of false state buffers.old.input) (take (turn_of result).run.at buffers.new.text) (point_of (failed result) (turn_of result) buffers.new.input) }
{
    let put = list_more(
        order,
        &buffers.input,
        state.ended,
        &mut buffers.line,
        &mut buffers.text,
        without_text(state.run),
    );
    let written = stdout.write_all(&buffers.text[..put.run.at]).is_ok();
    if !written {
        return stopped(put, state.ended, written);
    }
    go_on(stdin, &mut buffers.input, put, state.ended, written)
}

// The run before its next text is put.
fn without_text(run: Run) -> Run
    ensures { result ≡ anew run }
{
    Run { at: 0, ..run }
}

fn is_over(stop: Stop) -> bool
    ensures { result ≡ is_over stop }
{
    matches!(stop, Stop::Over)
}

// The turn at which a text was not written.
fn stopped(put: Put, ended: bool, written: bool) -> Result<Turn, Turn>
    requires { written ≡ false }
    ensures { result ≡ Err (record { run = put.run; ended = ended; over = is_over put.stop }) }
{
    Err(Turn {
        run: put.run,
        ended,
        over: is_over(put.stop),
    })
}

// Goes on with the next line, reads more of the input, or ends where all is put. What was put is written.
fn go_on(stdin: Stdin, input: &mut [u8], put: Put, ended: bool, written: bool) -> Result<Turn, Turn>
    requires written_value { written ≡ true }
    requires from_le_end { (put.run.from ≤ put.run.end) × (put.run.end ≤ length input.old) }
    requires ended_value { put.stop ≡ More → (ended ≡ false) × (put.run.end - put.run.from < length input.old) }
    ensures fed { Fed put ended input.old (turn_of result) (failed result) input.new }
    ensures failed_value { (put.stop ≡ More → ⊥) → failed result ≡ false }
{
    let run = put.run;
    match put.stop {
        Stop::Over => Ok(Turn {
            run,
            ended,
            over: true,
        }),
        Stop::Full => Ok(Turn {
            run,
            ended,
            over: false,
        }),
        Stop::More => refill(stdin, input, run),
    }
}

// Moves the characters that are not listed yet to the front, and reads behind them, so that they stay the first of those to be listed. There is room to read into:
// a read of no characters would be taken for the end of the input. A failed read ends the run.
fn refill(mut stdin: Stdin, input: &mut [u8], run: Run) -> Result<Turn, Turn>
    requires { (run.from ≤ run.end) × (run.end ≤ length input.old) × (run.end - run.from < length input.old) }
    ensures from_value { ((turn_of result).run.from ≡ 0) × ((turn_of result).run.end ≤ length input.old) }
    ensures from_bound { ((turn_of result).ended ≡ false → run.end - run.from < (turn_of result).run.end) × ((turn_of result).ended ≡ true → (turn_of result).run.end ≡ run.end - run.from) }
    ensures input_after { take (run.end - run.from) (rest_of (turn_of result).run input.new) ≡ rest_of run input.old }
    ensures at_value { ((turn_of result).run.at ≡ run.at) × ((turn_of result).run.accepted ≡ run.accepted) × ((turn_of result).run.refused ≡ run.refused) × ((turn_of result).over ≡ false) }
{
    let rest = run.end - run.from;
    input.copy_within(run.from..run.end, 0);
    let got = stdin.read(&mut input[rest..]).ok();
    after_read(run, got)
}

// The run after a read of so many characters behind those that are not listed yet, none of them at the end of the input. A read that failed ends the run.
fn after_read(run: Run, got: Option<usize>) -> Result<Turn, Turn>
    requires { (run.from ≤ run.end) × (run.end - run.from + unwrap_or got 0 < 18446744073709551616) }
    ensures turn { turn_of result ≡ record { run = record { from = 0; end = run.end - run.from + unwrap_or got 0; at = run.at; accepted = run.accepted; refused = run.refused }; ended = eqb (unwrap_or got 0) 0; over = false } }
    ensures failed { failed result ≡ is_none got }
{
    let count = got.unwrap_or(0);
    let next = Turn {
        run: Run {
            from: 0,
            end: run.end - run.from + count,
            ..run
        },
        ended: count == 0,
        over: false,
    };
    match got {
        Some(_) => Ok(next),
        None => Err(next),
    }
}
