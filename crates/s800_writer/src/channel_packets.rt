// The packets of times or energies, and the hodoscope's hits: what follows a packet's own row, at the front of `part`.
#![tactic(auto, using(event::proofs::RowsIn::rows_count))]

ghost use Rattle.std.specs.Prelude.{◌≤◌, drop};
ghost use Rattle.event.specs.Scanning.{Writes};
ghost use Rattle.event.specs.Writing.{rows_in};
ghost use Rattle.s800_layout.specs.Layout.{register_words};
ghost use Rattle.s800_layout.specs.Writing.{registers};
ghost use Rattle.s800_layout.specs.Event.{trigger, time_of_flight, ion_chamber, hodoscope, object_pin, vme_adc};
ghost use Rattle.s800_writer.specs.Packets.{WritesPacket};

use crate::content::{channel_word, write_channels};
use crate::part::close;
use crate::row::{check_channel, check_limits};
use crate::run::{OwnRow, Run};
use event::Part;
use event::kind::Kind;
use event::refusal::Refusal;
use event::rows::row_at;
use event::words::store_word;
use s800_format::tag::Tag;
use s800_format::{adc_energies, energies, flight_times, trigger_times};

// 0x5801: the pattern, then times.
pub(crate) fn write_trigger(own: OwnRow, part: &mut [u16]) -> Result<Part, Refusal>
    ensures { WritesPacket trigger 0 (rows_in own.entry.rows.now) own.entry.at part.old result part.new }
{
    let pattern = row_at(own.rows, own.at + 1);
    check_limits(
        pattern,
        Kind::TriggerPattern,
        0,
        0,
        s800_format::LARGEST_PATTERN,
        own.at + 1,
    )?;
    store_word(part, 2, pattern.datum as usize);
    let times = write_channels(
        Run {
            rows: own.rows,
            from: own.at + 2,
            first: 3,
        },
        trigger_times(),
        part,
    )?;
    close(part, 0, Tag::Trigger, times.count);
    Ok(times)
}

// 0x5802: times.
pub(crate) fn write_time_of_flight(own: OwnRow, part: &mut [u16]) -> Result<Part, Refusal>
    ensures { WritesPacket time_of_flight 0 (rows_in own.entry.rows.now) own.entry.at part.old result part.new }
{
    let times = write_channels(
        Run {
            rows: own.rows,
            from: own.at + 1,
            first: 2,
        },
        flight_times(),
        part,
    )?;
    close(part, 0, Tag::TimeOfFlight, times.count);
    Ok(times)
}

// 0x5820: one inner packet 0x5821 that fills it, of energies.
pub(crate) fn write_ion_chamber(own: OwnRow, part: &mut [u16]) -> Result<Part, Refusal>
    ensures { WritesPacket ion_chamber 0 (rows_in own.entry.rows.now) own.entry.at part.old result part.new }
{
    let written = write_channels(
        Run {
            rows: own.rows,
            from: own.at + 1,
            first: 4,
        },
        energies(0),
        part,
    )?;
    close(part, 2, Tag::IonChamberEnergies, written.count);
    close(part, 0, Tag::IonChamber, written.count);
    Ok(written)
}

// 0x58a0: one energy.
pub(crate) fn write_object_pin(own: OwnRow, part: &mut [u16]) -> Result<Part, Refusal>
    ensures { WritesPacket object_pin 0 (rows_in own.entry.rows.now) own.entry.at part.old result part.new }
{
    let format = energies(0);
    let row = row_at(own.rows, own.at + 1);
    check_channel(format, 0, row, own.at + 1)?;
    store_word(
        part,
        2,
        channel_word(format, row.channel, row.datum) as usize,
    );
    close(part, 0, Tag::ObjectPin, 3);
    Ok(Part {
        next: own.at + 2,
        count: 3,
    })
}

// 0x58b0: id 0 or 1, then energies, the row channel 16 times the id up; or id 2.
pub(crate) fn write_hodoscope(own: OwnRow, id: u32, part: &mut [u16]) -> Result<Part, Refusal>
    requires { id ≤ 2 }
    ensures { WritesPacket hodoscope id (rows_in own.entry.rows.now) own.entry.at part.old result part.new }
{
    store_word(part, 2, id as usize);
    if id == s800_format::HITS_ID {
        let hits = write_hits(
            Run {
                rows: own.rows,
                from: own.at + 1,
                first: 3,
            },
            part,
        )?;
        close(part, 0, Tag::Hodoscope, hits.count);
        return Ok(hits);
    }
    let written = write_channels(
        Run {
            rows: own.rows,
            from: own.at + 1,
            first: 3,
        },
        energies(16 * id),
        part,
    )?;
    close(part, 0, Tag::Hodoscope, written.count);
    Ok(written)
}

// Hit registers A and B, and the time.
fn write_hits(run: Run, part: &mut [u16]) -> Result<Part, Refusal>
    ensures { Writes 16 register_words (registers run.entry.from (drop run.entry.from (rows_in run.entry.rows.now))) (rows_in run.entry.rows.now) run.entry.first part.old result part.new }
{
    let row = row_at(run.rows, run.from);
    check_limits(row, Kind::HodoscopeHits, 65535, 65535, 65535, run.from)?;
    store_word(part, run.first, row.unit as usize);
    store_word(part, run.first + 1, row.channel as usize);
    store_word(part, run.first + 2, row.datum as usize);
    Ok(Part {
        next: run.from + 1,
        count: run.first + 3,
    })
}

// 0x58c0: id 0 to 3, then energies, the row channel 8 times the id up.
pub(crate) fn write_vme_adc(own: OwnRow, id: u32, part: &mut [u16]) -> Result<Part, Refusal>
    requires { id ≤ 3 }
    ensures { WritesPacket vme_adc id (rows_in own.entry.rows.now) own.entry.at part.old result part.new }
{
    store_word(part, 2, id as usize);
    let written = write_channels(
        Run {
            rows: own.rows,
            from: own.at + 1,
            first: 3,
        },
        adc_energies(8 * id),
        part,
    )?;
    close(part, 0, Tag::VmeAdc, written.count);
    Ok(written)
}
