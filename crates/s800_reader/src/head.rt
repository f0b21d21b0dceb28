// The event's first 14 words: its length, tag and version, the stamp packet, the event number packet.
ghost use Rattle.std.specs.Prelude.{◌+◌, ◌≤◌, ◌<◌, ◌≡◌, length};
ghost use Rattle.event.specs.Scanning.{store_rows};
ghost use Rattle.s800_layout.specs.Layout.{stamp_row};
ghost use Rattle.s800_format.specs.Tag.{number};
ghost use Rattle.s800_reader.specs.Head.{frame_of, head_verdict, stamp_of, stamp_rows, number_rows, Begins};

use crate::parts::store_packet;
use crate::word::word;
use event::kind::Kind;
use event::refusal::{Fault, Refusal, refuse};
use event::rows::store_row;
use event::{Part, Row, StampOrder};
use s800_format::tag::Tag;

// Refusals 1 to 4.
#[tactic(auto, unfolding(crate::specs::Head::frame_of))]
fn check_frame(words: &[u16]) -> Result<(), Refusal>
    ensures { result ≡ frame_of words.now }
{
    let n = words.len();
    if !(s800_format::SMALLEST_EVENT..=s800_format::LARGEST_EVENT).contains(&n) {
        return refuse(Fault::Size, 0);
    }
    if word(words, 0) as usize != n {
        return refuse(Fault::EventLength, 0);
    }
    if word(words, 1) != Tag::Event as u32 {
        return refuse(Fault::EventTag, 1);
    }
    if word(words, 2) != s800_format::VERSION {
        return refuse(Fault::Version, 2);
    }
    Ok(())
}

// Refusals 5 to 7 of a packet with one tag and one length, at `start`.
#[tactic(auto, unfolding(crate::specs::Head::head_fault))]
fn check_head(words: &[u16], start: usize, tag: Tag, size: usize) -> Result<(), Refusal>
    requires { start + 1 < length words.now }
    ensures { result ≡ head_verdict words.now start (number tag) size }
{
    let n = word(words, start) as usize;
    if !(2..=words.len() - start).contains(&n) {
        return refuse(Fault::Extent, start);
    }
    if word(words, start + 1) != tag.number() {
        return refuse(Fault::Tag, start + 1);
    }
    if n != size {
        return refuse(Fault::Length, start);
    }
    Ok(())
}

// The stamp's chunks a to d, in word order.
fn stamp_row(order: StampOrder, a: u32, b: u32, c: u32, d: u32) -> Row
    requires { (a < 65536) × (b < 65536) × (c < 65536) × (d < 65536) }
    ensures { result ≡ stamp_row order (stamp_of a b c d) }
{
    match order {
        StampOrder::Crossed => Row {
            kind: Kind::Stamp as u32,
            unit: 0,
            channel: d * 65536 + b,
            datum: c * 65536 + a,
        },
        StampOrder::Rising => Row {
            kind: Kind::Stamp as u32,
            unit: 0,
            channel: d * 65536 + c,
            datum: b * 65536 + a,
        },
    }
}

fn store_stamp(words: &[u16], order: StampOrder, rows: &mut [u32])
    requires { 14 ≤ length words.now }
    ensures { rows.new ≡ store_rows rows.old 0 (stamp_rows order words.now) }
{
    store_packet(rows, 0, Tag::Timestamp, 0);
    let stamp = stamp_row(
        order,
        word(words, 5),
        word(words, 6),
        word(words, 7),
        word(words, 8),
    );
    store_row(rows, 1, stamp);
}

fn store_number(words: &[u16], rows: &mut [u32])
    requires { 14 ≤ length words.now }
    ensures { rows.new ≡ store_rows rows.old 2 (number_rows words.now) }
{
    store_packet(rows, 2, Tag::EventNumber, 0);
    let number = Row {
        kind: Kind::EventNumber as u32,
        unit: 0,
        channel: word(words, 13),
        datum: word(words, 12) * 65536 + word(words, 11),
    };
    store_row(rows, 3, number);
}

// Refusals 1 to 7 of the first 14 words, or their four rows.
pub(crate) fn begin(words: &[u16], order: StampOrder, rows: &mut [u32]) -> Result<Part, Refusal>
    ensures { Begins order words.now rows.old rows.new result }
{
    check_frame(words)?;
    check_head(words, 3, Tag::Timestamp, 6)?;
    check_head(words, 9, Tag::EventNumber, 5)?;
    store_stamp(words, order, rows);
    store_number(words, rows);
    Ok(Part { next: 14, count: 4 })
}
