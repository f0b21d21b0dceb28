// The rules of a row where it stands: it is refused by 21 or 22.
ghost use Rattle.std.specs.Prelude.{◌≡◌};
ghost use Rattle.event.specs.Kind.{number as kind_number};
ghost use Rattle.event.specs.Refusal.{verdict};
ghost use Rattle.rcnp_writer.specs.Faults.{header_fault, sum_fault, datum_fault, vdc_fault, last_kind, VdcRight};

use event::Row;
use event::kind::Kind;
use event::refusal::{Fault, Refusal, refuse};
use event::words::pick;
use rcnp_format::{allows_size, has_form};

// A region's own row: its id, a size of 12 bits that the id allows, 0.
pub(crate) fn check_header(row: Row, place: usize) -> Result<(), Refusal>
    ensures { result ≡ verdict (header_fault row) place }
{
    if row.kind != Kind::Region as u32 {
        return refuse(Fault::Kind, place);
    }
    let allowed = has_form(row.unit) & allows_size(row.unit, row.channel);
    if (row.channel < 4096) & (row.datum == 0) & allowed {
        return Ok(());
    }
    refuse(Fault::Field, place)
}

// The own row of the check sum region.
pub(crate) fn check_sum_header(row: Row, place: usize) -> Result<(), Refusal>
    ensures { result ≡ verdict (sum_fault row) place }
{
    if row.kind != Kind::Region as u32 {
        return refuse(Fault::Kind, place);
    }
    if (row.unit == rcnp_format::CHECK_SUM) & (row.channel == 1) & (row.datum == 0) {
        return Ok(());
    }
    refuse(Fault::Field, place)
}

// A row of this kind: unit 0, this channel, a datum below `end`.
pub(crate) fn check_datum(
    row: Row,
    kind: Kind,
    channel: u32,
    end: u32,
    place: usize,
) -> Result<(), Refusal>
    ensures { result ≡ verdict (datum_fault (kind_number kind) channel end row) place }
{
    if row.kind != kind.number() {
        return refuse(Fault::Kind, place);
    }
    if (row.unit == 0) & (row.channel == channel) & (row.datum < end) {
        return Ok(());
    }
    refuse(Fault::Field, place)
}

// A row of a VDC region that breaks no rule; `most` is the last kind that may stand there. (Nothing is asked by the kind: headers and data alternate in no order,
// and a branch would be missed.)
pub(crate) fn vdc_right(row: Row, most: u32) -> bool
    ensures { VdcRight row most result }
{
    let head = row.kind == Kind::VdcModule as u32;
    let unit = row.unit < pick(head, 256, 1);
    let channel = row.channel < pick(head, 8, 32);
    let datum = row.datum < pick(head, 8, 1024);
    ((row.kind >= Kind::VdcModule as u32) & (row.kind <= most)) & (unit & (channel & datum))
}

// The last kind that may stand in a VDC region: a datum where it has begun, else a module's header.
pub(crate) fn last_kind(begun: bool) -> u32
    ensures { result ≡ last_kind begun }
{
    pick(begun, Kind::VdcDatum as u32, Kind::VdcModule as u32)
}

// A row of a VDC region: a module's header, or a datum where the region has begun.
pub(crate) fn check_vdc(row: Row, begun: bool, place: usize) -> Result<(), Refusal>
    ensures { result ≡ verdict (vdc_fault begun row) place }
{
    let most = last_kind(begun);
    if vdc_right(row, most) {
        return Ok(());
    }
    if row.kind < Kind::VdcModule as u32 || most < row.kind {
        return refuse(Fault::Kind, place);
    }
    refuse(Fault::Field, place)
}
