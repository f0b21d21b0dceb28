// The sum of an event's words, from its rows: no word is stored before it is known.
ghost use Rattle.std.specs.Prelude.{◌≡◌, ◌+◌, ◌%◌};
ghost use Rattle.event.specs.Parser.{each};
ghost use Rattle.event.specs.Writing.{rows_in, of_kind};
ghost use Rattle.rcnp_layout.specs.Layout.{total};
ghost use Rattle.rcnp_writer.specs.RowWords.{row_words};
ghost use Rattle.rcnp_writer.specs.Parts.{such, of_run, RunAt, Runs, Summed};

use crate::run::{row_there, run_words};
use crate::word::{field_word, single_word};
use event::Row;
use event::kind::Kind;
use event::rows::row_at;
use rcnp_format::Form;

// The sum of the words that a row says. Most rows are words as they are.
fn row_total(row: Row) -> usize
    ensures { result ≡ total (row_words row) }
{
    if row.kind == Kind::RegionWord as u32 {
        return row.datum as usize;
    }
    if row.kind == Kind::RegionScaler as u32 {
        return (row.datum % 65536 + row.datum / 65536) as usize;
    }
    field_word(row)
}

// The sum of the words of n rows of one word each, of the chamber or not, from row `first` on, modulo 2^32: so more of them are summed at once than in 64 bits.
#[tactic(auto, using(event::proofs::RowsIn::rows_count))]
fn sum_words<const CHAMBER: bool>(rows: &[u32], first: usize, n: usize) -> usize
    requires { RunAt (such CHAMBER) (rows_in rows.now) first n }
    ensures { Summed (rows_in rows.now) first (first + n) result }
{
    let mut sum: u32 = 0;
    for k in 0..n {
        let word = single_word::<CHAMBER>(row_there(rows, first + k));
        sum = sum.wrapping_add((word % 0x1_0000_0000) as u32);
    }
    sum as usize
}

// The sum of the rows of one word each that follow a region's own row, from row `first` on.
fn sum_run(rows: &[u32], own: Row, first: usize, n: usize) -> usize
    requires { RunAt (of_run own) (rows_in rows.now) first n }
    ensures { Summed (rows_in rows.now) first (first + n) result }
{
    if own.unit == Form::Vdc as u32 {
        return sum_words::<true>(rows, first, n);
    }
    sum_words::<false>(rows, first, n)
}

// The sum of the words of all rows, modulo 65,536. It is taken modulo 2^64 on the way. (How many rows a turn takes is known only by the first of them.)
#[tactic(auto, using(event::proofs::RowsIn::rows_count))]
pub(crate) fn row_sum(rows: &[u32]) -> usize
    requires { Runs (rows_in rows.now) }
    ensures { result ≡ total (each row_words (rows_in rows.now)) % 65536 }
{
    let mut sum: usize = 0;
    let mut i: usize = 0;
    while i < rows.len() / 4 {
        let row = row_at(rows, i);
        let n = run_words(row);
        let run = sum_run(rows, row, i + 1, n);
        sum = sum.wrapping_add(row_total(row)).wrapping_add(run);
        i += 1 + n;
    }
    sum % 65536
}
