// The lines put out, in a buffer until it is nearly full.
ghost use Rattle.std.specs.Prelude.{◌+◌, ◌<◌, ◌≤◌, ◌≡◌, length};
ghost use Rattle.run_vectors.specs.Text.{longest_text, Pending};
ghost use Rattle.run_vectors.specs.Runs.{Run};

use crate::text::{LONGEST_TEXT, put_answer, put_run};
use event::refusal::Refusal;
use hex_line::put_text;
use std::io::{Stdout, Write};

// The text not yet written stands in `text` up to `at`.
#[derive(Drop)]
pub(crate) struct Output {
    stdout: Stdout,
    text: [u8; 65536],
    at: usize,
    ghost pending: { Pending text at },
}

impl Output {
    pub(crate) fn new(stdout: Stdout) -> Output {
        Output {
            stdout,
            text: [0; 65536],
            at: 0,
        }
    }

    // What cannot be written is lost.
    pub(crate) fn write(&mut self)
        ensures { self.new.at ≡ 0 }
    {
        let mut stdout = self.stdout;
        let _ = stdout.write_all(&self.text[..self.at]);
        self.at = 0;
    }

    // The text goes out where the next line may not fit.
    fn make_room(&mut self)
        ensures { self.new.at + longest_text ≤ length self.new.text }
    {
        if self.text.len() - self.at < LONGEST_TEXT {
            self.write();
        }
    }

    pub(crate) fn put_malformed(&mut self) {
        self.make_room();
        self.at = put_text(&mut self.text, self.at, b"malformed\n");
    }

    // The answer, and the lent elements as runs of equal elements.
    pub(crate) fn put_result(&mut self, answer: Result<usize, Refusal>, lent: &[u32]) {
        self.make_room();
        self.at = put_answer(&mut self.text, self.at, answer);
        self.put_lent(lent);
    }

    // A run's length is known only once it is counted.
    fn put_lent(&mut self, lent: &[u32]) {
        let mut from = 0;
        while from < lent.len() {
            let times = run_length(lent, from);
            self.make_room();
            self.at = put_run(&mut self.text, self.at, times, lent[from]);
            from += times;
        }
    }
}

// How many elements from `from` on are equal.
fn run_length(lent: &[u32], from: usize) -> usize
    requires { from < length lent.now }
    ensures { Run lent.now from result }
{
    let element = lent[from];
    for times in 1..lent.len() - from {
        if lent[from + times] != element {
            return times;
        }
    }
    lent.len() - from
}
