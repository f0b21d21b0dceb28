// What every dialect shares: the rows of an event, the stamp order, the answer of a reading or a writing.
#![tactic(auto)]

pub mod channels;
pub mod kind;
pub mod refusal;
pub mod rows;
pub mod words;

ghost use Rattle.std.specs.Prelude.{◌≡◌};
ghost use Rattle.event.specs.Outcome.{default_order, order_of, refusal_number, count_or_place};

use refusal::Refusal;

// A row of an event (document 01, 'Rows').
#[derive(Clone, Copy, Debug, PartialEq, Eq)]
pub struct Row {
    pub kind: u32,
    pub unit: u32,
    pub channel: u32,
    pub datum: u32,
}

// The order of the four stamp chunks in dialect S (document 01, 'Two dialects').
#[derive(Clone, Copy, Debug, PartialEq, Eq)]
pub enum StampOrder {
    Crossed,
    Rising,
}

// A part of an event: the place after it, and the number of rows (or words) given up to there.
#[derive(Clone, Copy, Debug, PartialEq, Eq)]
pub struct Part {
    pub next: usize,
    pub count: usize,
}

// The refusal number of an answer, 0 where it accepts.
pub fn refusal_number(answer: Result<usize, Refusal>) -> u32
    ensures { result ≡ refusal_number answer }
{
    match answer {
        Ok(_) => 0,
        Err(refusal) => refusal.fault as u32,
    }
}

// The rows or words given, or the place of the refusal.
pub fn count_or_place(answer: Result<usize, Refusal>) -> usize
    ensures { result ≡ count_or_place answer }
{
    match answer {
        Ok(count) => count,
        Err(refusal) => refusal.place,
    }
}

// The stamp order where none is given.
impl Default for StampOrder {
    ghost is_default = { λ order. order ≡ default_order };

    fn default() -> StampOrder {
        StampOrder::Rising
    }
}

// The stamp order of a number: 0 is crossed, any other rising. (The host call refuses those above 1 first, by 31.)
impl From<u32> for StampOrder {
    ghost from_gives = { λ number order. order ≡ order_of number };

    fn from(number: u32) -> StampOrder {
        if number != 0 {
            return StampOrder::Rising;
        }
        StampOrder::Crossed
    }
}
