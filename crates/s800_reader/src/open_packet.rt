// One packet after the stamp and the event number, up to its channel words.
ghost use Rattle.std.specs.Prelude.{◌≤◌, ◌<◌, length};
ghost use Rattle.s800_reader.specs.Opening.{OpensPacket};

use crate::channel::Channels;
use crate::channel_packets::{
    open_hodoscope, open_ion_chamber, open_object_pin, open_time_of_flight, open_trigger,
    open_vme_adc,
};
use crate::packet::Packet;
use crate::whole_packets::{open_crdc, open_opaque, open_scintillator};
use crate::word::word;
use event::refusal::{Fault, Refusal, refuse};
use s800_format::tag::Tag;

// Refusals 5 and 6; then the packet's own function goes on with 7.
pub(crate) fn open_packet(
    words: &[u16],
    start: usize,
    rows: &mut [u32],
    count: usize,
) -> Result<Channels, Refusal>
    requires { (start < length words.now) × (count ≤ start) }
    ensures { OpensPacket words.now start count rows.old rows.new result }
{
    let size = word(words, start) as usize;
    if !(2..=words.len() - start).contains(&size) {
        return refuse(Fault::Extent, start);
    }
    let packet = Packet {
        words,
        start,
        size,
        count,
    };
    let Some(tag) = Tag::of(packet.word(1)) else {
        return refuse(Fault::Tag, packet.start + 1);
    };
    match tag {
        Tag::Trigger => open_trigger(packet, rows),
        Tag::TimeOfFlight => open_time_of_flight(packet, rows),
        Tag::Scintillator => open_scintillator(packet, rows),
        Tag::IonChamber => open_ion_chamber(packet, rows),
        Tag::Crdc => open_crdc(packet, rows),
        Tag::Hodoscope => open_hodoscope(packet, rows),
        Tag::ObjectPin => open_object_pin(packet, rows),
        Tag::VmeAdc => open_vme_adc(packet, rows),
        Tag::FocalPlaneTime
        | Tag::IntermediateCrdc
        | Tag::TargetPin
        | Tag::IntermediateTrack
        | Tag::IntermediatePpac
        | Tag::ObjectScintillator => open_opaque(packet, tag, rows),
        Tag::Event
        | Tag::Timestamp
        | Tag::EventNumber
        | Tag::IonChamberEnergies
        | Tag::CrdcSamples
        | Tag::CrdcAnode => refuse(Fault::Tag, packet.start + 1),
    }
}
