// The rows of an event, judged: the first refusal, or the number of its words.
ghost use Rattle.std.specs.Prelude.{◌≡◌, ◌≤◌, not, [], length, drop};
ghost use Rattle.event.specs.Parser.{several, each, finish, lastly};
ghost use Rattle.event.specs.Writing.{rows_in};
ghost use Rattle.event.specs.Scanning.{writing_all, ScannedBy};
ghost use Rattle.rcnp_layout.specs.Layout.{region_words, sum_words, summed, words as words_of};
ghost use Rattle.rcnp_layout.specs.Writing.{region, at_sum, parts_with};
ghost use Rattle.rcnp_writer.specs.Parts.{Counts, last_region};

use crate::fault::{check_datum, check_sum_header};
use crate::region::judge_region;
use crate::sum::row_sum;
use event::Part;
use event::kind::Kind;
use event::refusal::{Fault, Refusal, refuse};
use event::rows::row_at;

// Row `at` is there, and not the check sum region's own.
fn before_sum(rows: &[u32], at: usize) -> bool
    ensures { result ≡ not (at_sum (drop at (rows_in rows.now))) }
{
    if at < rows.len() / 4 {
        let row = row_at(rows, at);
        return !((Kind::Region as u32 == row.kind) & (rcnp_format::CHECK_SUM == row.unit));
    }
    false
}

// The regions before the check sum. (How many rows a region has is known only once it is judged.)
fn judge_regions(rows: &[u32]) -> Result<Part, Refusal>
    ensures { Counts (each region_words) (several region at_sum 0 (rows_in rows.now)) (rows_in rows.now) 0 result }
{
    let mut i: usize = 0;
    let mut at: usize = 0;
    while before_sum(rows, i) {
        let judged = judge_region(rows, i)?;
        at += judged.count;
        i = judged.next;
    }
    Ok(Part { next: i, count: at })
}

// The check sum region, whose own row is row `at`. No row follows it.
fn judge_check_sum(rows: &[u32], at: usize) -> Result<Part, Refusal>
    requires { at ≤ length (rows_in rows.now) }
    ensures { Counts sum_words (last_region at (drop at (rows_in rows.now))) (rows_in rows.now) 0 result }
{
    check_sum_header(row_at(rows, at), at)?;
    check_datum(row_at(rows, at + 1), Kind::RegionWord, 0, 65536, at + 1)?;
    if at + 2 < rows.len() / 4 {
        return refuse(Fault::Kind, at + 2);
    }
    Ok(Part {
        next: at + 2,
        count: 2,
    })
}

// The rows one after another, up to the first that breaks a rule of its own.
fn judge_rows(rows: &[u32]) -> Result<usize, Refusal>
    ensures { ScannedBy (writing_all 16) words_of (parts_with (finish 21) 0 (rows_in rows.now)) 0 [] result [] }
{
    let regions = judge_regions(rows)?;
    let last = judge_check_sum(rows, regions.next)?;
    Ok(regions.count + last.count)
}

// The number of the event's words, or its first refusal: a wrong sum, which the whole event fixes, after all rows, at the last one.
pub(crate) fn count_words(rows: &[u32]) -> Result<usize, Refusal>
    ensures { ScannedBy (writing_all 16) words_of (lastly summed 22 (parts_with (finish 21)) 0 (rows_in rows.now)) 0 [] result [] }
{
    let count = judge_rows(rows)?;
    if row_sum(rows) != 0 {
        return refuse(Fault::Field, rows.len() / 4 - 1);
    }
    Ok(count)
}
