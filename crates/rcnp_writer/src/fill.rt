// The words of rows, stored where there is room for them. The rows were judged before, so that each says its words by its kind.
ghost use Rattle.std.specs.Prelude.{◌≡◌, ◌+◌, ◌*◌, ◌^◌, ◌<◌, ◌≤◌, length};
ghost use Rattle.event.specs.Parser.{each};
ghost use Rattle.event.specs.Words.{store_word};
ghost use Rattle.event.specs.Writing.{rows_in, of_kind};
ghost use Rattle.event.specs.Scanning.{store_words};
ghost use Rattle.rcnp_writer.specs.RowWords.{row_words};
ghost use Rattle.rcnp_writer.specs.Parts.{such, of_run, RunAt, Runs, Filled};

use crate::run::{row_there, run_words};
use crate::word::{field_word, single_word};
use event::kind::Kind;
use event::rows::{fitting, row_at};
use event::words::{part_start, store_word};
use event::{Part, Row};
use rcnp_format::Form;

// The words of a row, from word `at` on: one, but for a scaler two, its low 16 bits and then the upper 8. The place after them.
fn store_row(words: &mut [u16], at: usize, row: Row) -> usize
    requires { at + 2 < 2 ^ 64 }
    ensures { (words.new ≡ store_words 16 words.old at (row_words row)) × (result ≡ at + length (row_words row)) }
{
    if row.kind == Kind::RegionWord as u32 {
        store_word(words, at, row.datum as usize);
        return at + 1;
    }
    if row.kind == Kind::RegionScaler as u32 {
        store_word(words, at, (row.datum % 65536) as usize);
        store_word(words, at + 1, (row.datum / 65536) as usize);
        return at + 2;
    }
    store_word(words, at, field_word(row));
    at + 1
}

// A word that fits: `event::words::store_word` without its test of the room, which the loop would make for each word.
fn put_word(words: &mut [u16], at: usize, word: usize)
    requires { at < length words.old }
    ensures { words.new ≡ store_word 16 words.old at word }
{
    words[at] = (word % 65536) as u16;
}

// The words of n rows of one word each, of the chamber or not, from row `first` on, from word `at` on: those that fit, so that the loop has no test.
#[tactic(auto, using(event::proofs::RowsIn::rows_count))]
fn store_words<const CHAMBER: bool>(
    rows: &[u32],
    first: usize,
    n: usize,
    words: &mut [u16],
    at: usize,
)
    requires { RunAt (such CHAMBER) (rows_in rows.now) first n × (at ≤ 2 * first) }
    ensures { Filled (rows_in rows.now) first (first + n) at (at + n) words.old words.new }
{
    let most = fitting(n, at, words.len());
    for k in 0..most {
        put_word(
            words,
            at + k,
            single_word::<CHAMBER>(row_there(rows, first + k)),
        );
    }
}

// The rows from row `first` on, up to the next region's own or the last one, from word `at` on.
fn store_rows(rows: &[u32], first: usize, words: &mut [u16], at: usize) -> Part
    requires { (first ≤ length (rows_in rows.now)) × (at ≤ 2 * first) }
    ensures { Filled (rows_in rows.now) first result.next at result.count words.old words.new }
{
    let mut count = at;
    for i in first..rows.len() / 4 {
        let row = row_at(rows, i);
        if row.kind == Kind::Region as u32 {
            return Part { next: i, count };
        }
        count = store_row(words, count, row);
    }
    Part {
        next: rows.len() / 4,
        count,
    }
}

// The rows of one word each that follow a region's own row, from row `first` on.
fn store_run(rows: &[u32], own: Row, first: usize, n: usize, words: &mut [u16], at: usize)
    requires { RunAt (of_run own) (rows_in rows.now) first n × (at ≤ 2 * first) }
    ensures { Filled (rows_in rows.now) first (first + n) at (at + n) words.old words.new }
{
    if own.unit == Form::Vdc as u32 {
        store_words::<true>(rows, first, n, words, at);
    } else {
        store_words::<false>(rows, first, n, words, at);
    }
}

// The region whose own row is row `first`, at the front of the words. Rows of one word each are stored in loops of their own.
#[tactic(auto, using(event::proofs::RowsIn::rows_count))]
fn write_region(rows: &[u32], first: usize, words: &mut [u16]) -> Part
    requires { (first < length (rows_in rows.now)) × Runs (rows_in rows.now) }
    ensures { (first < result.next) × Filled (rows_in rows.now) first result.next 0 result.count words.old words.new }
{
    let row = row_at(rows, first);
    let at = store_row(words, 0, row);
    let n = run_words(row);
    store_run(rows, row, first + 1, n, words, at);
    store_rows(rows, first + 1 + n, words, at + n)
}

// All regions, each in the part of the words that starts at its place. (How many rows a region has is known only once it is written.)
#[tactic(auto, using(event::proofs::RowsIn::rows_count))]
pub(crate) fn write_regions(rows: &[u32], words: &mut [u16])
    requires { Runs (rows_in rows.now) }
    ensures { words.new ≡ store_words 16 words.old 0 (each row_words (rows_in rows.now)) }
{
    let mut i: usize = 0;
    let mut at: usize = 0;
    while i < rows.len() / 4 {
        let start = part_start(at, words.len());
        let written = write_region(rows, i, &mut words[start..]);
        at += written.count;
        i = written.next;
    }
}
