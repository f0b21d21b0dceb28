// What a row must keep to; the first thing that it does not keep refuses it at its place.
ghost use Rattle.std.specs.Prelude.{◌≡◌, not, ◌^◌, drop};
ghost use Rattle.event.specs.Kind.{number};
ghost use Rattle.event.specs.Refusal.{verdict};
ghost use Rattle.event.specs.Writing.{rows_in, at_kind};
ghost use Rattle.s800_layout.specs.Writing.{sample_head_of};
ghost use Rattle.s800_format.specs.Format.{bits_of};
ghost use Rattle.s800_writer.specs.Rows.{limits_fault, datum_fault, time_fault, sample_datum_fault};

use event::Row;
use event::channels::contains;
use event::kind::Kind;
use event::refusal::{Fault, Refusal, refuse};
use event::rows::row_at;
use s800_format::Format;

// Row `at` is there, and of another kind than this one.
#[tactic(auto, using(crate::proofs::Limits::other_there, crate::proofs::Limits::rows_ended))]
pub(crate) fn before_kind(rows: &[u32], at: usize, kind: Kind) -> bool
    ensures { result ≡ not (at_kind (number kind) (drop at (rows_in rows.now))) }
{
    at < rows.len() / 4 && kind.number() != row_at(rows, at).kind
}

// A row of this kind, of which each field has a largest number.
#[tactic(auto, unfolding(crate::specs::Rows::limits_fault))]
pub(crate) fn check_limits(
    row: Row,
    kind: Kind,
    unit: u32,
    channel: u32,
    datum: u32,
    place: usize,
) -> Result<(), Refusal>
    ensures { result ≡ verdict (limits_fault (number kind) unit channel datum row) place }
{
    if row.kind != kind.number() {
        return refuse(Fault::Kind, place);
    }
    if (row.unit <= unit) & (row.channel <= channel) & (row.datum <= datum) {
        return Ok(());
    }
    refuse(Fault::Field, place)
}

// The numbers of a format are those under this one.
fn value_end(format: Format) -> u32
    ensures { result ≡ 2 ^ bits_of format }
{
    if format.wide { 8192 } else { 4096 }
}

// A time or an energy. The set has the channels not allowed, and those seen.
#[tactic(auto, unfolding(crate::specs::Rows::datum_fault))]
pub(crate) fn check_channel(
    format: Format,
    blocked: u32,
    row: Row,
    place: usize,
) -> Result<(), Refusal>
    ensures { result ≡ verdict (datum_fault format blocked row) place }
{
    if row.kind != format.kind {
        return refuse(Fault::Kind, place);
    }
    if row.channel < format.base {
        return refuse(Fault::Field, place);
    }
    let channel = row.channel - format.base;
    if (row.unit == 0) & (channel < 16) & (row.datum < value_end(format)) {
        if contains(blocked, channel) {
            return refuse(Fault::Field, place);
        }
        return Ok(());
    }
    refuse(Fault::Field, place)
}

// The time of a pair, of the energy's channel.
#[tactic(auto, unfolding(crate::specs::Rows::time_fault))]
pub(crate) fn check_time(row: Row, channel: u32, place: usize) -> Result<(), Refusal>
    ensures { result ≡ verdict (time_fault channel row) place }
{
    if row.kind != Kind::Time as u32 {
        return refuse(Fault::Kind, place);
    }
    if (row.unit == 0) & (row.channel == channel) & (row.datum < 4096) {
        return Ok(());
    }
    refuse(Fault::Field, place)
}

// A row of kind 12 under its head, of a connector from `least` on.
pub(crate) fn check_sample_datum(
    row: Row,
    head: Row,
    least: u32,
    place: usize,
) -> Result<(), Refusal>
    ensures { result ≡ verdict (sample_datum_fault (sample_head_of head) least row) place }
{
    if row.kind != Kind::SampleDatum as u32 {
        return refuse(Fault::Kind, place);
    }
    let same = (row.unit == head.unit) & (row.channel % 64 == head.channel);
    if same & (row.channel <= 255) & (row.datum <= 1023) & (least <= row.channel / 64) {
        return Ok(());
    }
    refuse(Fault::Field, place)
}
