// The event's first blocks: the stamp, the scaler, the pattern unit where there is one.
ghost use Rattle.std.specs.Prelude.{◌≤◌, ◌≡◌, length, drop};
ghost use Rattle.event.specs.Parser.{optionally, if_any};
ghost use Rattle.event.specs.Scanning.{store_rows, PartOf};
ghost use Rattle.frs_layout.specs.Layout.{scaler_rows_from, scaler_rows, pattern_rows};
ghost use Rattle.frs_layout.specs.Reading.{scaler, pattern_unit, at_pattern};
ghost use Rattle.frs_reader.specs.Beginning.{Within, Stamped, Begins};

use crate::longword::{data_under, geo_of, word};
use event::kind::Kind;
use event::refusal::{Fault, Refusal, refuse};
use event::rows::store_row;
use event::{Part, Row};

// The stamp's row.
fn stamp(words: &[u32]) -> Result<Row, Refusal>
    requires { 4 ≤ length words.now }
    ensures { Stamped words.now result }
{
    if word(words, 0) != frs_format::STAMP {
        return refuse(Fault::Data, 0);
    }
    let unit = data_under(frs_format::STAMP_WORD_1, words, 1)?;
    let channel = data_under(frs_format::STAMP_WORD_2, words, 2)?;
    let datum = data_under(frs_format::STAMP_WORD_3, words, 3)?;
    Ok(Row {
        kind: Kind::FStamp as u32,
        unit,
        channel,
        datum,
    })
}

// The scalers as rows from row 2 on.
fn store_scalers(scalers: &[u32], rows: &mut [u32])
    requires { length scalers.now ≤ 32 }
    ensures { rows.new ≡ store_rows rows.old 2 (scaler_rows_from 0 scalers.now) }
{
    for (i, scaler) in scalers.iter().enumerate() {
        let row = Row {
            kind: Kind::Scaler as u32,
            unit: frs_format::SCALER_GEO,
            channel: i as u32,
            datum: *scaler,
        };
        store_row(rows, 2 + i, row);
    }
}

// The scaler, right after the stamp: GEO 6, flag 2, count 1 to 32.
fn scaler(words: &[u32], rows: &mut [u32]) -> Result<Part, Refusal>
    requires { 7 ≤ length words.now }
    ensures { PartOf scaler_rows (scaler 4 (drop 4 words.now)) words.now 1 rows.old rows.new result }
{
    let header = word(words, 4);
    if header < frs_format::SCALER_HEADER_LEAST || frs_format::SCALER_HEADER_MOST < header {
        return refuse(Fault::Tag, 4);
    }
    let count = header - frs_format::SCALER_HEADER;
    let end = 5 + count as usize;
    if words.len() <= end {
        return refuse(Fault::Extent, 4);
    }
    let row = Row {
        kind: Kind::ScalerBlock as u32,
        unit: frs_format::SCALER_GEO,
        channel: count,
        datum: 0,
    };
    store_row(rows, 1, row);
    store_scalers(&words[5..end], rows);
    if word(words, end) != frs_format::SCALER_END {
        return refuse(Fault::Inner, end);
    }
    Ok(Part {
        next: end + 1,
        count: 2 + count as usize,
    })
}

// The pattern unit, where the longword after the scaler has GEO 5.
fn pattern_unit(words: &[u32], scaled: Part, rows: &mut [u32]) -> Result<Part, Refusal>
    requires { Within words.now scaled }
    ensures { PartOf (if_any pattern_rows) (optionally at_pattern pattern_unit scaled.next (drop scaled.next words.now)) words.now scaled.count rows.old rows.new result }
{
    let at = scaled.next;
    if words.len() <= at || geo_of(word(words, at)) != frs_format::PATTERN_GEO {
        return Ok(scaled);
    }
    if word(words, at) != frs_format::PATTERN_HEADER {
        return refuse(Fault::Tag, at);
    }
    if words.len() - at < 4 {
        return refuse(Fault::Extent, at);
    }
    let register = data_under(frs_format::PATTERN_REGISTER, words, at + 1)?;
    let multiplicity = data_under(frs_format::PATTERN_MULTIPLICITY, words, at + 2)?;
    if word(words, at + 3) != frs_format::PATTERN_END {
        return refuse(Fault::Inner, at + 3);
    }
    let row = Row {
        kind: Kind::PatternUnit as u32,
        unit: frs_format::PATTERN_GEO,
        channel: multiplicity,
        datum: register,
    };
    store_row(rows, scaled.count, row);
    Ok(Part {
        next: at + 4,
        count: scaled.count + 1,
    })
}

// Refusal 1, then what stands before the modules.
pub(crate) fn begin(words: &[u32], rows: &mut [u32]) -> Result<Part, Refusal>
    ensures { Begins words.now rows.old rows.new result }
{
    if words.len() < frs_format::SMALLEST_EVENT || frs_format::LARGEST_EVENT < words.len() {
        return refuse(Fault::Size, 0);
    }
    store_row(rows, 0, stamp(words)?);
    let scaled = scaler(words, rows)?;
    pattern_unit(words, scaled, rows)
}
