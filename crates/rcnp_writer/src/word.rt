// The words of rows, made of their fields. They stand in 64 bits, where no field of 32 bits wraps.
ghost use Rattle.std.specs.Prelude.{◌≡◌, if◌then◌else◌};
ghost use Rattle.rcnp_layout.specs.Layout.{header_word, vdc_word};
ghost use Rattle.rcnp_layout.specs.Writing.{vdc_of};
ghost use Rattle.rcnp_writer.specs.RowWords.{field_word, single_word};

use event::Row;
use event::kind::Kind;

// A region's header: id in bits 15-12, size in bits 11-0.
fn header_word(id: u32, size: u32) -> usize
    ensures { result ≡ header_word id size }
{
    id as usize * 4096 + size as usize
}

// A word of a VDC region: a module's header (bit 15 set, event number in bits 13-11, mode in bits 10-8, module in bits 7-0), or a datum (channel in bits 14-10, time
// below). What a header has more than a datum with its fields is added or not: headers and data alternate in no order, and a branch by their kind would be missed.
fn vdc_word(row: Row) -> usize
    ensures { result ≡ vdc_word (vdc_of row) }
{
    let channel = row.channel as usize * 1024;
    let datum = row.datum as usize;
    let more = 32768 + channel + datum * 255 + row.unit as usize;
    channel + datum + only_if(row.kind == Kind::VdcModule as u32, more)
}

// The word of a row that follows a region's own: of the chamber, or as it is.
pub(crate) fn single_word<const CHAMBER: bool>(row: Row) -> usize
    ensures { result ≡ single_word CHAMBER row }
{
    if CHAMBER {
        vdc_word(row)
    } else {
        row.datum as usize
    }
}

// The number, or 0: `event::words::pick` is of 32 bits.
fn only_if(held: bool, number: usize) -> usize
    ensures { result ≡ (if held then number else 0) }
{
    if held { number } else { 0 }
}

// The word of a row that is neither a word as it is nor a scaler: a region's header, or a word of the chamber. (The test is one of order, so that the compiler
// makes no table of jumps of all kinds.)
pub(crate) fn field_word(row: Row) -> usize
    ensures { result ≡ field_word row }
{
    if row.kind > Kind::RegionScaler as u32 {
        return vdc_word(row);
    }
    header_word(row.unit, row.channel)
}
