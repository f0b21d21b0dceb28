// The groups of samples of a CRDC: a head, a word with bit 15, then one to four data words with rising connectors (document 02, #103).
// A word is judged by the one before it, and gives one row. The loops over good words have no branch by their kind, which cannot be foreseen.
ghost use Rattle.std.specs.Prelude.{◌+◌, ◌-◌, ◌≤◌, ◌<◌, ◌≡◌, false, length};
ghost use Rattle.std.proofs.Math.Seq.{slice};
ghost use Rattle.event.specs.Parser.{each};
ghost use Rattle.event.specs.Scanning.{store_rows, Scanned};
ghost use Rattle.s800_layout.specs.Layout.{group_rows};
ghost use Rattle.s800_reader.specs.Channel.{NoMore};
ghost use Rattle.s800_reader.specs.Groups.{follows, word_row, word_rows, FaultAt, Judged};
ghost use Rattle.s800_reader.specs.Opening.{samples_of};

use crate::packet::Packet;
use crate::word::word;
use event::Row;
use event::kind::Kind;
use event::refusal::{Fault, Refusal, refuse};
use event::rows::{fitting, store_row};
use event::words::pick;
use s800_format::pad;

// Words of an event that are to be groups: those from `from` up to `end`.
#[derive(Clone, Copy)]
struct Samples<'a> {
    words: &'a [u16],
    from: usize,
    end: usize,
    ghost ordered: { from ≤ end },
    ghost inside: { end ≤ length words.now },
}

// The groups of a CRDC packet: from word 6 up to the last four.
pub(crate) fn read_samples(packet: Packet, rows: &mut [u32]) -> Result<usize, Refusal>
    requires { 10 ≤ packet.size }
    ensures { Scanned (each group_rows) (samples_of packet.entry) (packet.entry.count + 2) rows.old result rows.new × NoMore (packet.entry.start + packet.entry.size - 4) result }
{
    let samples = Samples {
        words: packet.words,
        from: packet.start + 6,
        end: packet.start + packet.size - 4,
    };
    if groups_hold(samples) {
        store_groups(samples, rows, packet.count + 2);
        return Ok(packet.count + 2 + (samples.end - samples.from));
    }
    refuse(Fault::Data, group_fault(samples))
}

// Whether the words are groups. Nothing is decided before the last of them, so that several are judged at once.
fn groups_hold(samples: Samples) -> bool
    ensures { Judged samples.entry.words.now samples.entry.from samples.entry.end result }
{
    let Samples { words, from, end } = samples;
    if from == end {
        return true;
    }
    let mut holds = 0x8000 <= word(words, from);
    for i in from + 1..end {
        holds = holds & follow(word(words, i - 1), word(words, i));
    }
    holds & (word(words, end - 1) < 0x8000)
}

// Whether word `w` may follow the one before it.
#[tactic(auto, unfolding(crate::specs::Groups::follows))]
fn follow(before: u32, w: u32) -> bool
    ensures { result ≡ follows before w }
{
    let head = (0x8000 <= w) & (before < 0x8000);
    let rising = (0x8000 <= before) | (before / 1024 < w / 1024);
    head | ((w < 0x1000) & rising)
}

// The place of the first fault in words that are not groups: a data word, or a head with no data word after it.
fn group_fault(samples: Samples) -> usize
    requires { Judged samples.words.now samples.from samples.end false }
    ensures { FaultAt samples.entry.words.now samples.entry.from samples.entry.end result }
{
    let Samples { words, from, end } = samples;
    // As after a data word of connector 3: only a head may come first.
    let mut before: u32 = 0x0c00;
    let mut head = from;
    for i in from..end {
        let w = word(words, i);
        if !follow(before, w) {
            if w < 0x8000 {
                return i;
            }
            return head;
        }
        if 0x8000 <= w {
            head = i;
        }
        before = w;
    }
    head
}

// Stores the rows of words that are groups: those that fit.
fn store_groups(samples: Samples, rows: &mut [u32], first: usize)
    ensures { rows.new ≡ store_rows rows.old first (word_rows 0 (slice samples.entry.from samples.entry.end samples.entry.words.now)) }
{
    let Samples { words, from, end } = samples;
    let most = fitting(end - from, first, rows.len() / 4);
    let mut head: u32 = 0;
    for i in 0..most {
        let w = word(words, from + i);
        store_row(rows, first + i, word_row(head, w));
        head = pick(0x8000 <= w, w, head);
    }
}

// Bit 15 set, sample in bits 14-6, channel in bits 5-0; or, under such a head, connector in bits 11-10, energy in bits 9-0.
#[tactic(auto, unfolding(crate::specs::Groups::word_row))]
fn word_row(head: u32, w: u32) -> Row
    requires { (head < 65536) × (w < 65536) }
    ensures { result ≡ word_row head w }
{
    let datum = pick(0x8000 <= w, 0, w);
    let under = pick(0x8000 <= w, w, head);
    Row {
        kind: pick(
            0x8000 <= w,
            Kind::SampleHead as u32,
            Kind::SampleDatum as u32,
        ),
        unit: under / 64 % 512,
        channel: pad((under % 64) as u16, (datum / 1024) as u16),
        datum: datum % 1024,
    }
}
