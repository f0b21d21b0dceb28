// The rules of a row where it stands: its kind, then its fields.
ghost use Rattle.std.specs.Prelude.{◌≡◌};
ghost use Rattle.event.specs.Refusal.{verdict};
ghost use Rattle.frs_writer.specs.Faults.{stamp_fault, block_fault, scaler_fault, pattern_fault, header_fault, value_fault};

use event::Row;
use event::channels::contains;
use event::kind::Kind;
use event::refusal::{Fault, Refusal, refuse};

pub(crate) fn check_stamp(row: Row, place: usize) -> Result<(), Refusal>
    ensures { result ≡ verdict (stamp_fault row) place }
{
    if row.kind != Kind::FStamp as u32 {
        return refuse(Fault::Kind, place);
    }
    if 0xffff < row.unit || 0xffff < row.channel || 0xffff < row.datum {
        return refuse(Fault::Field, place);
    }
    Ok(())
}

pub(crate) fn check_block(row: Row, place: usize) -> Result<(), Refusal>
    ensures { result ≡ verdict (block_fault row) place }
{
    if row.kind != Kind::ScalerBlock as u32 {
        return refuse(Fault::Kind, place);
    }
    if row.unit != frs_format::SCALER_GEO
        || row.channel < 1
        || frs_format::LARGEST_COUNT < row.channel
        || row.datum != 0
    {
        return refuse(Fault::Field, place);
    }
    Ok(())
}

// The row of the scaler with this index. Any 32-bit value may stand there.
pub(crate) fn check_scaler(index: u32, row: Row, place: usize) -> Result<(), Refusal>
    ensures { result ≡ verdict (scaler_fault index row) place }
{
    if row.kind != Kind::Scaler as u32 {
        return refuse(Fault::Kind, place);
    }
    if row.unit != frs_format::SCALER_GEO || row.channel != index {
        return refuse(Fault::Field, place);
    }
    Ok(())
}

pub(crate) fn check_pattern(row: Row, place: usize) -> Result<(), Refusal>
    ensures { result ≡ verdict (pattern_fault row) place }
{
    if row.kind != Kind::PatternUnit as u32 {
        return refuse(Fault::Kind, place);
    }
    if row.unit != frs_format::PATTERN_GEO || 0xffff < row.channel || 0xffff < row.datum {
        return refuse(Fault::Field, place);
    }
    Ok(())
}

// A module's first row. Its GEO is neither the pattern unit's nor the scaler's, nor among those seen.
pub(crate) fn check_header(seen: u32, row: Row, place: usize) -> Result<(), Refusal>
    ensures { result ≡ verdict (header_fault seen row) place }
{
    if row.kind == Kind::EmptyModule as u32 {
        if row.channel != 0 || row.datum != 0 {
            return refuse(Fault::Field, place);
        }
    } else if row.kind != Kind::Module as u32 {
        return refuse(Fault::Kind, place);
    } else if row.channel < 1 || frs_format::LARGEST_COUNT < row.channel || 0xffff < row.datum {
        return refuse(Fault::Field, place);
    }
    if 31 < row.unit || row.unit == frs_format::PATTERN_GEO || row.unit == frs_format::SCALER_GEO {
        return refuse(Fault::Field, place);
    }
    if contains(seen, row.unit) {
        return refuse(Fault::Field, place);
    }
    Ok(())
}

// A value of the module with this GEO, with a channel that is not among those seen.
pub(crate) fn check_value(geo: u32, seen: u32, row: Row, place: usize) -> Result<(), Refusal>
    ensures { result ≡ verdict (value_fault geo seen row) place }
{
    if row.kind != Kind::Value as u32 {
        return refuse(Fault::Kind, place);
    }
    if row.unit != geo || 31 < row.channel || frs_format::DATUM_END <= row.datum {
        return refuse(Fault::Field, place);
    }
    if contains(seen, row.channel) {
        return refuse(Fault::Field, place);
    }
    Ok(())
}
