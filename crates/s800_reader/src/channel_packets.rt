// The packets that end in channel words, and the hodoscope's hits. Each function opens one: it reads the words before the channel words.
ghost use Rattle.s800_layout.specs.Event.{trigger, time_of_flight, ion_chamber, hodoscope, object_pin, vme_adc};
ghost use Rattle.s800_reader.specs.Opening.{HodoscopeHits, Opened};

use crate::channel::Channels;
use crate::packet::Packet;
use crate::parts::{store_datum, store_packet};
use event::Row;
use event::kind::Kind;
use event::refusal::{Fault, Refusal, refuse};
use event::rows::store_row;
use s800_format::tag::Tag;
use s800_format::{adc_energies, energies, flight_times, trigger_times};

// 0x5801, 3 to 7 words: the pattern, then times of channels 8 to 11.
pub(crate) fn open_trigger(packet: Packet, rows: &mut [u32]) -> Result<Channels, Refusal>
    ensures { Opened trigger packet.entry rows.old rows.new result }
{
    if !(3..=7).contains(&packet.size) {
        return refuse(Fault::Length, packet.start);
    }
    let pattern = packet.word(2);
    if s800_format::LARGEST_PATTERN < pattern {
        return refuse(Fault::Data, packet.start + 2);
    }
    store_packet(rows, packet.count, Tag::Trigger, 0);
    store_datum(rows, packet.count + 1, Kind::TriggerPattern, pattern);
    Ok(packet.channels(trigger_times(), 3, 2))
}

// 0x5802, 2 to 10 words: times of channels 4 to 7 and 12 to 15.
pub(crate) fn open_time_of_flight(packet: Packet, rows: &mut [u32]) -> Result<Channels, Refusal>
    ensures { Opened time_of_flight packet.entry rows.old rows.new result }
{
    if !(2..=10).contains(&packet.size) {
        return refuse(Fault::Length, packet.start);
    }
    store_packet(rows, packet.count, Tag::TimeOfFlight, 0);
    Ok(packet.channels(flight_times(), 2, 1))
}

// 0x5820, 4 to 20 words: one inner packet 0x5821 that fills it, of energies.
pub(crate) fn open_ion_chamber(packet: Packet, rows: &mut [u32]) -> Result<Channels, Refusal>
    ensures { Opened ion_chamber packet.entry rows.old rows.new result }
{
    if !(4..=20).contains(&packet.size) {
        return refuse(Fault::Length, packet.start);
    }
    if packet.word(2) as usize != packet.size - 2 {
        return refuse(Fault::Inner, packet.start + 2);
    }
    if packet.word(3) != Tag::IonChamberEnergies as u32 {
        return refuse(Fault::Inner, packet.start + 3);
    }
    store_packet(rows, packet.count, Tag::IonChamber, 0);
    Ok(packet.channels(energies(0), 4, 1))
}

// 0x58a0, 3 words: one energy.
pub(crate) fn open_object_pin(packet: Packet, rows: &mut [u32]) -> Result<Channels, Refusal>
    ensures { Opened object_pin packet.entry rows.old rows.new result }
{
    if packet.size != 3 {
        return refuse(Fault::Length, packet.start);
    }
    store_packet(rows, packet.count, Tag::ObjectPin, 0);
    Ok(packet.channels(energies(0), 2, 1))
}

// 0x58b0, 3 to 19 words: id 0 or 1, then energies, the row channel 16 times the id up; or id 2.
pub(crate) fn open_hodoscope(packet: Packet, rows: &mut [u32]) -> Result<Channels, Refusal>
    ensures { Opened hodoscope packet.entry rows.old rows.new result }
{
    if !(3..=19).contains(&packet.size) {
        return refuse(Fault::Length, packet.start);
    }
    let id = packet.word(2);
    if s800_format::HITS_ID < id {
        return refuse(Fault::Id, packet.start + 2);
    }
    if id == s800_format::HITS_ID {
        return open_hits(packet, rows);
    }
    store_packet(rows, packet.count, Tag::Hodoscope, id);
    Ok(packet.channels(energies(16 * id), 3, 1))
}

// 0x58b0 with id 2, 6 words: hit registers A and B, and the time.
fn open_hits(packet: Packet, rows: &mut [u32]) -> Result<Channels, Refusal>
    requires { HodoscopeHits packet.words.now packet.start packet.size }
    ensures { Opened hodoscope packet.entry rows.old rows.new result }
{
    if packet.size != 6 {
        return refuse(Fault::Length, packet.start);
    }
    store_packet(rows, packet.count, Tag::Hodoscope, s800_format::HITS_ID);
    let row = Row {
        kind: Kind::HodoscopeHits as u32,
        unit: packet.word(3),
        channel: packet.word(4),
        datum: packet.word(5),
    };
    store_row(rows, packet.count + 1, row);
    Ok(packet.whole(packet.count + 2))
}

// 0x58c0, 3 to 11 words: id 0 to 3, then energies, the row channel 8 times the id up.
pub(crate) fn open_vme_adc(packet: Packet, rows: &mut [u32]) -> Result<Channels, Refusal>
    ensures { Opened vme_adc packet.entry rows.old rows.new result }
{
    if !(3..=11).contains(&packet.size) {
        return refuse(Fault::Length, packet.start);
    }
    let id = packet.word(2);
    if 3 < id {
        return refuse(Fault::Id, packet.start + 2);
    }
    store_packet(rows, packet.count, Tag::VmeAdc, id);
    Ok(packet.channels(adc_energies(8 * id), 3, 1))
}
