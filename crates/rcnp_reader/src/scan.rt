// One scan of the parts serves the check and the filling: it stores a row only where the buffer has room for it.
ghost use Rattle.std.specs.Prelude.{◌≤◌, true, ◌≡◌, length, drop};
ghost use Rattle.event.specs.Parser.{finish, several, each};
ghost use Rattle.event.specs.Scanning.{Scanned, PartOf};
ghost use Rattle.rcnp_layout.specs.Layout.{region_rows, sum_rows, rows as rows_of};
ghost use Rattle.rcnp_layout.specs.Reading.{region, at_sum, parts_with, event_parser};
ghost use Rattle.rcnp_reader.specs.Regions.{last_parts};

use crate::Opened;
use crate::content::{Chamber, Opaque, WordRow, store_words};
use crate::region::open_region;
use crate::word::{at_sum, is_vdc, sum_of, word};
use event::kind::Kind;
use event::refusal::{Fault, Refusal, refuse};
use event::rows::store_row;
use event::{Part, Row};

// Reads regions up to the check sum's, or to the first word that breaks a rule. The inner loop judges the words of a VDC region; their rows are stored
// together, behind it. (Where a region ends is known only by its header.)
fn regions(words: &[u16], rows: &mut [u32]) -> Result<Part, Refusal>
    ensures { PartOf (each region_rows) (several region at_sum 0 words.now) words.now 0 rows.old rows.new result }
{
    let mut at: usize = 0;
    let mut count: usize = 0;
    'regions: loop {
        if at_sum(words, at) {
            break 'regions Ok(Part { next: at, count });
        }
        match open_region(words, at, rows, count)? {
            Opened::Whole(read) => {
                at = read.next;
                count = read.count;
            }
            Opened::Chamber { end } => {
                let first = at + 1;
                let mut begun = false;
                for i in first..end {
                    if !is_vdc(begun, word(words, i)) {
                        break 'regions refuse(Fault::Data, i);
                    }
                    begun = true;
                }
                store_words::<Chamber>(words, first, end, rows, count + 1);
                at = end;
                count += 1 + (end - first);
            }
        }
    }
}

// The check sum region, which begins at `at` unless the words end there: 6, 5, 7, 6 at a word after it; then its two rows.
fn sum_region(words: &[u16], at: usize, rows: &mut [u32], count: usize) -> Result<usize, Refusal>
    requires { (at ≤ length words.now) × (count ≤ at) × (at_sum (drop at words.now) ≡ true) }
    ensures { Scanned sum_rows (last_parts at (drop at words.now)) count rows.old result rows.new }
{
    if words.len() <= at {
        return refuse(Fault::Tag, at);
    }
    let size = word(words, at) % 4096;
    if words.len() - at <= size as usize {
        return refuse(Fault::Extent, at);
    }
    if size != 1 {
        return refuse(Fault::Length, at);
    }
    if 2 < words.len() - at {
        return refuse(Fault::Tag, at + 2);
    }
    let row = Row {
        kind: Kind::Region as u32,
        unit: rcnp_format::CHECK_SUM,
        channel: 1,
        datum: 0,
    };
    store_row(rows, count, row);
    store_row(rows, count + 1, Opaque::row(word(words, at + 1)));
    Ok(count + 2)
}

// Every rule but the number of words and the sum.
pub(crate) fn parts(words: &[u16], rows: &mut [u32]) -> Result<usize, Refusal>
    ensures { Scanned rows_of (parts_with (finish 6) 0 words.now) 0 rows.old result rows.new }
{
    let before = regions(words, rows)?;
    sum_region(words, before.next, rows, before.count)
}

// Reads the event up to the first word that breaks a rule; the sum last.
pub(crate) fn scan(words: &[u16], rows: &mut [u32]) -> Result<usize, Refusal>
    ensures { Scanned rows_of (event_parser (length words.now) 0 words.now) 0 rows.old result rows.new }
{
    if words.len() < rcnp_format::SMALLEST_EVENT {
        return refuse(Fault::Size, 0);
    }
    if rcnp_format::LARGEST_EVENT < words.len() {
        return refuse(Fault::Size, 0);
    }
    let count = parts(words, rows)?;
    if sum_of(words) % 65536 != 0 {
        return refuse(Fault::Sum, words.len() - 1);
    }
    Ok(count)
}
