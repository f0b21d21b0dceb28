// The event's first blocks: the stamp, the scaler, the pattern unit where there is one.
ghost use Rattle.std.specs.Prelude.{◌^◌, ◌≤◌, ◌<◌, ◌≡◌, length, drop};
ghost use Rattle.event.specs.Parser.{optionally, times, each, if_any};
ghost use Rattle.event.specs.Words.{word_alone};
ghost use Rattle.event.specs.Writing.{rows_in};
ghost use Rattle.event.specs.Scanning.{store_words, Writes};
ghost use Rattle.frs_layout.specs.Layout.{stamp_words, scaler_words, pattern_words};
ghost use Rattle.frs_layout.specs.Writing.{stamp_of, pattern_of, scaler_at, next_index, scaler, pattern_unit, at_pattern};
ghost use Rattle.frs_writer.specs.Parts.{Begins};

use crate::fault::{check_block, check_pattern, check_scaler, check_stamp};
use crate::longword::{halves, store, store_four};
use event::kind::Kind;
use event::refusal::Refusal;
use event::rows::row_at;
use event::words::part_start;
use event::{Part, Row};

fn store_stamp(words: &mut [u32], row: Row)
    requires { (row.unit < 2 ^ 16) × (row.channel < 2 ^ 16) × (row.datum < 2 ^ 16) }
    ensures { words.new ≡ store_words 32 words.old 0 (stamp_words (stamp_of row)) }
{
    let first = halves(frs_format::STAMP_WORD_1, row.unit);
    let second = halves(frs_format::STAMP_WORD_2, row.channel);
    let third = halves(frs_format::STAMP_WORD_3, row.datum);
    store_four(words, [frs_format::STAMP, first, second, third]);
}

// The n scalers from row 2 on, as longwords after the header.
fn write_scalers(rows: &[u32], n: u32, words: &mut [u32]) -> Result<Part, Refusal>
    requires { (n ≤ 32) × (2 ≤ length (rows_in rows.now)) }
    ensures { Writes 32 (each word_alone) (times scaler_at next_index n 0 2 (drop 2 (rows_in rows.now))) (rows_in rows.now) 1 words.old result words.new }
{
    for index in 0..n {
        let at = 2 + index as usize;
        let row = row_at(rows, at);
        check_scaler(index, row, at)?;
        store(words, 1 + index as usize, row.datum);
    }
    Ok(Part {
        next: 2 + n as usize,
        count: 1 + n as usize,
    })
}

// The scaler, at the front of the words.
fn write_scaler(rows: &[u32], words: &mut [u32]) -> Result<Part, Refusal>
    requires { 1 ≤ length (rows_in rows.now) }
    ensures { Writes 32 scaler_words (scaler 1 (drop 1 (rows_in rows.now))) (rows_in rows.now) 0 words.old result words.new }
{
    let row = row_at(rows, 1);
    check_block(row, 1)?;
    let scalers = write_scalers(rows, row.channel, words)?;
    store(words, 0, frs_format::SCALER_HEADER + row.channel);
    store(words, scalers.count, frs_format::SCALER_END);
    Ok(Part {
        next: scalers.next,
        count: scalers.count + 1,
    })
}

fn store_pattern(words: &mut [u32], row: Row)
    requires { (row.channel < 2 ^ 16) × (row.datum < 2 ^ 16) }
    ensures { words.new ≡ store_words 32 words.old 0 (pattern_words (pattern_of row)) }
{
    let register = halves(frs_format::PATTERN_REGISTER, row.datum);
    let multiplicity = halves(frs_format::PATTERN_MULTIPLICITY, row.channel);
    store_four(
        words,
        [
            frs_format::PATTERN_HEADER,
            register,
            multiplicity,
            frs_format::PATTERN_END,
        ],
    );
}

// The pattern unit, where the row after the scalers is one, at the front of the words.
fn write_pattern_unit(rows: &[u32], at: usize, words: &mut [u32]) -> Result<Part, Refusal>
    requires { at ≤ length (rows_in rows.now) }
    ensures { Writes 32 (if_any pattern_words) (optionally at_pattern pattern_unit at (drop at (rows_in rows.now))) (rows_in rows.now) 0 words.old result words.new }
{
    let row = row_at(rows, at);
    if row.kind != Kind::PatternUnit as u32 {
        return Ok(Part { next: at, count: 0 });
    }
    check_pattern(row, at)?;
    store_pattern(words, row);
    Ok(Part {
        next: at + 1,
        count: 4,
    })
}

// What stands before the modules: the stamp at the front, each block in the part of the words that starts at its place.
pub(crate) fn begin(rows: &[u32], words: &mut [u32]) -> Result<Part, Refusal>
    ensures { Begins (rows_in rows.now) words.old words.new result }
{
    let row = row_at(rows, 0);
    check_stamp(row, 0)?;
    store_stamp(words, row);
    let start = part_start(4, words.len());
    let scaler = write_scaler(rows, &mut words[start..])?;
    let at = 4 + scaler.count;
    let start = part_start(at, words.len());
    let pattern = write_pattern_unit(rows, scaler.next, &mut words[start..])?;
    Ok(Part {
        next: pattern.next,
        count: at + pattern.count,
    })
}
