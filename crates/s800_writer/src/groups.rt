// The groups of samples of a CRDC, up to the anode's row: a head, a row of kind 8, then one to four rows of kind 12 (document 02, #103).
// Where a group ends shows only once it is read, so that no `for` goes over them.
ghost use Rattle.std.specs.Prelude.{◌≤◌, ◌≡◌, drop};
ghost use Rattle.event.specs.Parser.{many, several, each};
ghost use Rattle.event.specs.Words.{store_word};
ghost use Rattle.event.specs.Scanning.{Writes};
ghost use Rattle.event.specs.Writing.{rows_in, at_kind};
ghost use Rattle.s800_layout.specs.Layout.{sample_head_word, sample_datum_word, group_words, above};
ghost use Rattle.s800_layout.specs.Writing.{sample_head_of, sample_datum_of, sample_datum, after_data, group};
ghost use Rattle.s800_writer.specs.Rows.{sample_datum_words};

use crate::row::{before_kind, check_limits, check_sample_datum};
use crate::run::Run;
use event::kind::Kind;
use event::refusal::{Fault, Refusal, refuse};
use event::rows::row_at;
use event::words::store_word;
use event::{Part, Row};

// A good head is neither the anode's row nor past the last one, so the end is looked for only where a row is no good head. (Not inlined: in the whole writer, which
// is one function once compiled, the loops would keep their index in memory.)
#[inline(never)]
pub(crate) fn write_samples(run: Run, words: &mut [u16]) -> Result<Part, Refusal>
    ensures { Writes 16 (each group_words) (several group (at_kind 9) run.entry.from (drop run.entry.from (rows_in run.entry.rows.now))) (rows_in run.entry.rows.now) run.entry.first words.old result words.new }
{
    let mut i = run.from;
    let mut at = run.first;
    loop {
        let head = row_at(run.rows, i);
        if let Err(refusal) = check_limits(head, Kind::SampleHead, 511, 63, 0, i) {
            if before_kind(run.rows, i, Kind::Anode) {
                return Err(refusal);
            }
            return Ok(Part { next: i, count: at });
        }
        store_head(words, at, head);
        let data = write_data(
            Run {
                rows: run.rows,
                from: i + 1,
                first: at + 1,
            },
            head,
            words,
        )?;
        if data.next == i + 1 {
            return refuse(Fault::Kind, data.next);
        }
        i = data.next;
        at = data.count;
    }
}

// The rows of kind 12 behind their head, as many as there are.
fn write_data(run: Run, head: Row, words: &mut [u16]) -> Result<Part, Refusal>
    requires { (head.unit ≤ 511) × (head.channel ≤ 63) }
    ensures { Writes 16 (each sample_datum_words) (many (sample_datum (sample_head_of head)) above after_data 0 run.entry.from (drop run.entry.from (rows_in run.entry.rows.now))) (rows_in run.entry.rows.now) run.entry.first words.old result words.new }
{
    let mut least: u32 = 0;
    let mut i = run.from;
    let mut at = run.first;
    loop {
        let row = row_at(run.rows, i);
        if row.kind != Kind::SampleDatum as u32 {
            return Ok(Part { next: i, count: at });
        }
        check_sample_datum(row, head, least, i)?;
        store_datum(words, at, row);
        least = row.channel / 64 + 1;
        at += 1;
        i += 1;
    }
}

// Bit 15 set, the sample in bits 14-6, the channel in bits 5-0.
fn store_head(words: &mut [u16], at: usize, row: Row)
    requires { (row.unit ≤ 511) × (row.channel ≤ 63) }
    ensures { words.new ≡ store_word 16 words.old at (sample_head_word (sample_head_of row)) }
{
    let head = 32768 + row.unit * 64 + row.channel;
    store_word(words, at, head as usize);
}

// The connector of the pad in bits 11-10, the energy below.
fn store_datum(words: &mut [u16], at: usize, row: Row)
    requires { (row.channel ≤ 255) × (row.datum ≤ 1023) }
    ensures { words.new ≡ store_word 16 words.old at (sample_datum_word (sample_datum_of row)) }
{
    let datum = row.channel / 64 * 1024 + row.datum;
    store_word(words, at, datum as usize);
}
