// An event: the stamp packet, the event number packet, the packets after them.
ghost use Rattle.std.specs.Prelude.{◌≡◌, drop};
ghost use Rattle.event.specs.Parser.{ended, several, each};
ghost use Rattle.event.specs.Refusal.{verdict};
ghost use Rattle.event.specs.Scanning.{store_words, ScannedBy, writing_all, Writes};
ghost use Rattle.event.specs.Writing.{rows_in};
ghost use Rattle.s800_layout.specs.Event.{stamp_tag, number_tag};
ghost use Rattle.s800_layout.specs.Layout.{framed, stamp_words, number_words, packet_words, words as words_of};
ghost use Rattle.s800_layout.specs.Writing.{stamp_of, stamp_packet, number_packet, packet, event_rows_up_to};
ghost use Rattle.s800_format.specs.Tag.{number};
ghost use Rattle.s800_writer.specs.Packets.{own_fault, chunk_of};

use crate::packet::write_packet;
use crate::part::close;
use crate::row::check_limits;
use crate::run::{OwnRow, Run};
use event::kind::Kind;
use event::refusal::{Fault, Refusal, refuse};
use event::rows::row_at;
use event::words::{part_start, store_word};
use event::{Part, Row, StampOrder};
use s800_format::tag::Tag;

// The own row of a packet with this tag and no id.
#[tactic(auto, unfolding(crate::specs::Packets::own_fault))]
fn check_own(row: Row, tag: Tag, place: usize) -> Result<(), Refusal>
    ensures { result ≡ verdict (own_fault (number tag) row) place }
{
    if (row.kind == Kind::Packet.number()) & (row.unit == tag.number()) {
        if (row.channel == 0) & (row.datum == 0) {
            return Ok(());
        }
        return refuse(Fault::Field, place);
    }
    refuse(Fault::Kind, place)
}

// Of two chunks, the one that stands there in this order.
fn chunk(order: StampOrder, crossed: u32, rising: u32) -> u32
    ensures { result ≡ chunk_of order crossed rising }
{
    match order {
        StampOrder::Crossed => crossed,
        StampOrder::Rising => rising,
    }
}

// The chunks of a stamp: bits 15-0 first and 63-48 last; crossed, bits 47-32 stand before bits 31-16.
fn store_stamp(part: &mut [u16], row: Row, order: StampOrder)
    ensures { part.new ≡ store_words 16 part.old 2 (stamp_words (stamp_of order row)) }
{
    let middle_low = row.datum / 65536;
    let middle_high = row.channel % 65536;
    store_word(part, 2, (row.datum % 65536) as usize);
    store_word(part, 3, chunk(order, middle_high, middle_low) as usize);
    store_word(part, 4, chunk(order, middle_low, middle_high) as usize);
    store_word(part, 5, (row.channel / 65536) as usize);
}

// 0x5803, rows 0 and 1.
fn write_stamp(rows: &[u32], order: StampOrder, part: &mut [u16]) -> Result<Part, Refusal>
    ensures { Writes 16 (λ s. framed stamp_tag (stamp_words s)) (stamp_packet order 0 (rows_in rows.now)) (rows_in rows.now) 0 part.old result part.new }
{
    check_own(row_at(rows, 0), Tag::Timestamp, 0)?;
    let row = row_at(rows, 1);
    check_limits(row, Kind::Stamp, 0, 0xffff_ffff, 0xffff_ffff, 1)?;
    store_stamp(part, row, order);
    close(part, 0, Tag::Timestamp, 6);
    Ok(Part { next: 2, count: 6 })
}

// 0x5804, rows 2 and 3: bits 15-0, 31-16, 47-32.
fn write_number(rows: &[u32], part: &mut [u16]) -> Result<Part, Refusal>
    ensures { Writes 16 (λ k. framed number_tag (number_words k)) (number_packet 2 (drop 2 (rows_in rows.now))) (rows_in rows.now) 0 part.old result part.new }
{
    check_own(row_at(rows, 2), Tag::EventNumber, 2)?;
    let row = row_at(rows, 3);
    check_limits(row, Kind::EventNumber, 0, 65535, 0xffff_ffff, 3)?;
    store_word(part, 2, (row.datum % 65536) as usize);
    store_word(part, 3, (row.datum / 65536) as usize);
    store_word(part, 4, row.channel as usize);
    close(part, 0, Tag::EventNumber, 5);
    Ok(Part { next: 4, count: 5 })
}

// The packets, each in its part of the words. Where one ends shows only once it is written, so that no `for` goes over them.
fn write_packets(run: Run, words: &mut [u16]) -> Result<Part, Refusal>
    ensures { Writes 16 (each packet_words) (several packet ended run.entry.from (drop run.entry.from (rows_in run.entry.rows.now))) (rows_in run.entry.rows.now) run.entry.first words.old result words.new }
{
    let mut i = run.from;
    let mut at = run.first;
    while i < run.rows.len() / 4 {
        let start = part_start(at, words.len());
        let packet = write_packet(
            OwnRow {
                rows: run.rows,
                at: i,
            },
            &mut words[start..],
        )?;
        at += packet.count;
        i = packet.next;
    }
    Ok(Part { next: i, count: at })
}

// Writes the event as far as the words have room for it. Without room it finds the refusal, or the number of words.
pub(crate) fn write_event(
    rows: &[u32],
    order: StampOrder,
    words: &mut [u16],
) -> Result<usize, Refusal>
    ensures { ScannedBy (writing_all 16) words_of (event_rows_up_to order ended 0 (rows_in rows.now)) 0 words.old result words.new }
{
    // Words 0 to 2 are the event's length, its tag and its version, 3 to 8 the stamp packet, 9 to 13 the event number packet.
    store_word(words, 2, s800_format::VERSION as usize);
    let at = part_start(3, words.len());
    write_stamp(rows, order, &mut words[at..])?;
    let at = part_start(9, words.len());
    write_number(rows, &mut words[at..])?;
    let packets = write_packets(
        Run {
            rows,
            from: 4,
            first: 14,
        },
        words,
    )?;
    close(words, 0, Tag::Event, packets.count);
    Ok(packets.count)
}
