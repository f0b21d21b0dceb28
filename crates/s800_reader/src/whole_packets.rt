// The packets whose content is read whole: pairs, the groups and the anode of a CRDC (cathode readout drift chamber), opaque words.
ghost use Rattle.std.specs.Prelude.{ℕ, ◌+◌, ◌-◌, ◌≤◌, ◌≡◌, List};
ghost use Rattle.event.specs.Scanning.{store_rows, Scanned};
ghost use Rattle.s800_layout.specs.Event.{Opaque, scintillator, crdc, opaque, tag as tag_of};
ghost use Rattle.s800_format.specs.Tag.{number};
ghost use Rattle.s800_reader.specs.Channel.{anode_rows, NoMore};
ghost use Rattle.s800_reader.specs.Opening.{CrdcFront, crdc_front_rows, anode_of, Opened};

use crate::channel::Channels;
use crate::content::{read_opaque, read_pairs};
use crate::groups::read_samples;
use crate::packet::Packet;
use crate::parts::{store_datum, store_packet};
use event::Row;
use event::kind::Kind;
use event::refusal::{Fault, Refusal, refuse};
use event::rows::store_row;
use s800_format::tag::Tag;

// 0x5810, an even length of 2 to 14 words: pairs of an energy and a time.
pub(crate) fn open_scintillator(packet: Packet, rows: &mut [u32]) -> Result<Channels, Refusal>
    ensures { Opened scintillator packet.entry rows.old rows.new result }
{
    if packet.size % 2 == 1 {
        return refuse(Fault::Length, packet.start);
    }
    if 14 < packet.size {
        return refuse(Fault::Length, packet.start);
    }
    store_packet(rows, packet.count, Tag::Scintillator, 0);
    let count = read_pairs(packet, rows)?;
    Ok(packet.whole(count))
}

// 0x5840, 10 words and up: id 0 or 1, an inner packet 0x5841 as long as the packet less 7 (a threshold, then groups of samples), an
// inner packet 0x5845.
pub(crate) fn open_crdc(packet: Packet, rows: &mut [u32]) -> Result<Channels, Refusal>
    ensures { Opened crdc packet.entry rows.old rows.new result }
{
    if packet.size < 10 {
        return refuse(Fault::Length, packet.start);
    }
    let id = packet.word(2);
    if 1 < id {
        return refuse(Fault::Id, packet.start + 2);
    }
    if packet.word(3) as usize != packet.size - 7 {
        return refuse(Fault::Inner, packet.start + 3);
    }
    if packet.word(4) != Tag::CrdcSamples as u32 {
        return refuse(Fault::Inner, packet.start + 4);
    }
    store_packet(rows, packet.count, Tag::Crdc, id);
    store_datum(rows, packet.count + 1, Kind::Threshold, packet.word(5));
    read_crdc(packet, rows)
}

// The groups and the anode of a CRDC packet, after the rows up to its threshold.
fn read_crdc(packet: Packet, rows: &mut [u32]) -> Result<Channels, Refusal>
    requires { CrdcFront packet.words.now packet.start packet.size }
    ensures { (before : List ℕ) → rows.old ≡ store_rows before packet.entry.count (crdc_front_rows packet.entry.words.now packet.entry.start) → Opened crdc packet.entry before rows.new result }
{
    let samples = read_samples(packet, rows)?;
    let count = read_anode(packet, rows, samples)?;
    Ok(packet.whole(count))
}

// The inner packet 0x5845, the last 4 words: the anode's energy and time.
fn read_anode(packet: Packet, rows: &mut [u32], count: usize) -> Result<usize, Refusal>
    requires { (10 ≤ packet.size) × (count ≤ packet.start + packet.size - 4) }
    ensures { Scanned anode_rows (anode_of packet.entry) count rows.old result rows.new × NoMore (packet.entry.start + packet.entry.size) result }
{
    let at = packet.size - 4;
    if packet.word(at) != 4 {
        return refuse(Fault::Inner, packet.start + at);
    }
    if packet.word(at + 1) != Tag::CrdcAnode as u32 {
        return refuse(Fault::Inner, packet.start + at + 1);
    }
    let row = Row {
        kind: Kind::Anode as u32,
        unit: 0,
        channel: packet.word(at + 2),
        datum: packet.word(at + 3),
    };
    store_row(rows, count, row);
    Ok(count + 1)
}

// The packets of opaque words, 2 words and up.
pub(crate) fn open_opaque(packet: Packet, tag: Tag, rows: &mut [u32]) -> Result<Channels, Refusal>
    ensures { (k : Opaque) → number tag ≡ tag_of (opaque k) → Opened (opaque k) packet.entry rows.old rows.new result }
{
    store_packet(rows, packet.count, tag, 0);
    Ok(packet.whole(read_opaque(packet, rows)))
}
