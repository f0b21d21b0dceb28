// The check of dialect S for an analysis written in C (document 01, 'A host analysis written in C may call the check'). host_c exports it.
#![tactic(auto)]

ghost use Rattle.std.specs.Prelude.{◌+◌, ◌*◌, ◌/◌, ◌≤◌, ◌≡◌, length};
ghost use Rattle.event.specs.Outcome.{answer_of, overlaid};
ghost use Rattle.s800_layout.specs.Reading.{reading};
ghost use Rattle.host.specs.Check.{words_of, checking, packed, In32, host_answer};

use event::StampOrder;
use event::refusal::{Fault, Refusal, refuse};

// The rows of the event in these bytes, low byte first, or 2^32 times a refusal number plus its place. Any bytes and any order may come in.
pub fn s800_check(bytes: &[u8], order: u32) -> u64
    ensures { result ≡ host_answer bytes.now order }
{
    packed(answer_to(bytes, order))
}

// The answer as one number: the rows, or the refusal.
fn packed(answer: Result<usize, Refusal>) -> u64
    requires { In32 answer }
    ensures { result ≡ packed answer }
{
    match answer {
        Ok(rows) => rows as u64,
        Err(refusal) => 0x1_0000_0000 * refusal.fault as u64 + refusal.place as u64,
    }
}

// 31 first, then 1 for an odd byte count, then the check.
fn answer_to(bytes: &[u8], order: u32) -> Result<usize, Refusal>
    ensures { result ≡ answer_of (checking bytes.now order) }
{
    if 1 < order {
        return refuse(Fault::Order, 0);
    }
    if bytes.len() % 2 != 0 {
        return refuse(Fault::Size, 0); // an odd count
    }
    check_bytes(bytes, StampOrder::from(order))
}

// Checks the words of the bytes.
fn check_bytes(bytes: &[u8], order: StampOrder) -> Result<usize, Refusal>
    ensures { result ≡ answer_of (reading order (words_of bytes.now)) }
{
    let size = bytes.len() / 2;
    // More words than any event has: the reading's own answer, whatever they are.
    if s800_format::LARGEST_EVENT < size {
        return refuse(Fault::Size, 0);
    }
    // Most events are short, and the words of a short one are soon cleared.
    if size <= 256 {
        let mut words = [0u16; 256];
        return check_in(bytes, order, &mut words);
    }
    let mut words = [0u16; s800_format::LARGEST_EVENT];
    check_in(bytes, order, &mut words)
}

// Checks the words of the bytes, stored in `words`. (Inlined, so that the compiler sees an array's own size where its words are cleared and the bytes are copied.)
#[inline(always)]
fn check_in(bytes: &[u8], order: StampOrder, words: &mut [u16]) -> Result<usize, Refusal>
    requires { length bytes.now / 2 ≤ length words.old }
    ensures { result ≡ answer_of (reading order (words_of bytes.now)) }
{
    let size = bytes.len() / 2;
    store_words(bytes, words);
    s800::check(&words[..size], order)
}

// Stores the words of the bytes.
fn store_words(bytes: &[u8], words: &mut [u16])
    requires { length bytes.now / 2 ≤ length words.old }
    ensures { words.new ≡ overlaid (words_of bytes.now) words.old }
{
    let size = bytes.len() / 2;
    for i in 0..size {
        words[i] = word(bytes[2 * i], bytes[2 * i + 1]);
    }
}

// The low byte first.
fn word(low: u8, high: u8) -> u16
    ensures { result ≡ low + 256 * high }
{
    u16::from(low) + 256 * u16::from(high)
}
