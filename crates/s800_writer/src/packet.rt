// One packet after the stamp and the event number.
ghost use Rattle.std.specs.Prelude.{◌≤◌, ◌≡◌, drop};
ghost use Rattle.event.specs.Refusal.{verdict};
ghost use Rattle.event.specs.Scanning.{Writes};
ghost use Rattle.event.specs.Writing.{rows_in};
ghost use Rattle.s800_layout.specs.Event.{largest_id, form_of, tag as tag_of};
ghost use Rattle.s800_layout.specs.Layout.{packet_words};
ghost use Rattle.s800_layout.specs.Writing.{packet};
ghost use Rattle.s800_format.specs.Tag.{number};
ghost use Rattle.s800_writer.specs.Packets.{id_count, header_fault, WritesPacket};

use crate::channel_packets::{
    write_hodoscope, write_ion_chamber, write_object_pin, write_time_of_flight, write_trigger,
    write_vme_adc,
};
use crate::other_packets::{write_crdc, write_opaque, write_scintillator};
use crate::run::OwnRow;
use event::kind::Kind;
use event::refusal::{Fault, Refusal, refuse};
use event::rows::row_at;
use event::{Part, Row};
use s800_format::tag::Tag;

// How many ids a packet with tag 0x58x0 may have, by x.
const IDS: [u32; 16] = [0, 1, 1, 1, 2, 1, 1, 1, 1, 1, 1, 3, 4, 0, 0, 0];

// How many ids a packet with this tag may have: 1 where it has none (0 stands in its own row), 0 for a tag of no packet. The word is looked up, and not matched
// as a `Tag`: packets of many tags follow each other in no order that a processor could predict, so the one branch by the tag is that in `write_content`.
fn id_count(tag: u32) -> u32
    ensures { result ≡ id_count tag }
{
    if tag / 256 != 0x58 {
        return 0;
    }
    if tag % 16 == 0 {
        return IDS[(tag / 16 % 16) as usize];
    }
    if tag == Tag::Trigger as u32 {
        return 1;
    }
    if tag == Tag::TimeOfFlight as u32 {
        return 1;
    }
    0
}

// A packet's own row.
#[tactic(auto, using(crate::proofs::Headers::header_unknown, crate::proofs::Headers::header_good, crate::proofs::Headers::header_bad))]
fn check_header(row: Row, place: usize) -> Result<(), Refusal>
    ensures { result ≡ verdict (header_fault row) place }
{
    if row.kind != Kind::Packet as u32 {
        return refuse(Fault::Kind, place);
    }
    let end = id_count(row.unit);
    if end == 0 {
        return refuse(Fault::Kind, place);
    }
    if (row.channel < end) & (row.datum == 0) {
        return Ok(());
    }
    refuse(Fault::Field, place)
}

// The packet after its own row, which has this tag and this id.
fn write_content(own: OwnRow, tag: Tag, id: u32, part: &mut [u16]) -> Result<Part, Refusal>
    requires { (tag_of (form_of (number tag)) ≡ number tag) × (id ≤ largest_id (form_of (number tag))) }
    ensures { WritesPacket (form_of (number tag)) id (rows_in own.entry.rows.now) own.entry.at part.old result part.new }
{
    match tag {
        Tag::Trigger => write_trigger(own, part),
        Tag::TimeOfFlight => write_time_of_flight(own, part),
        Tag::Scintillator => write_scintillator(own, part),
        Tag::IonChamber => write_ion_chamber(own, part),
        Tag::Crdc => write_crdc(own, id, part),
        Tag::Hodoscope => write_hodoscope(own, id, part),
        Tag::ObjectPin => write_object_pin(own, part),
        Tag::VmeAdc => write_vme_adc(own, id, part),
        _ => write_opaque(own, tag, part),
    }
}

// A packet by its own row, at the front of `part`.
pub(crate) fn write_packet(own: OwnRow, part: &mut [u16]) -> Result<Part, Refusal>
    ensures { Writes 16 packet_words (packet own.entry.at (drop own.entry.at (rows_in own.entry.rows.now))) (rows_in own.entry.rows.now) 0 part.old result part.new }
{
    let row = row_at(own.rows, own.at);
    check_header(row, own.at)?;
    match Tag::of(row.unit) {
        Some(tag) => write_content(own, tag, row.channel, part),
        None => unreachable!(),
    }
}
