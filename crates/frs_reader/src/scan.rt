// One scan serves the check and the filling: it stores a row only where the buffer has room for it.
ghost use Rattle.std.specs.Prelude.{◌≤◌, ◌≡◌, [], length, drop};
ghost use Rattle.event.specs.Parser.{ended, many, each};
ghost use Rattle.event.specs.Scanning.{Scanned};
ghost use Rattle.frs_layout.specs.Layout.{module_rows, rows as rows_of, geos};
ghost use Rattle.frs_layout.specs.Reading.{one_module, event_parser};
ghost use Rattle.frs_reader.specs.Beginning.{Within};

use crate::begin::begin;
use crate::longword::{geo_of, word};
use crate::module::module;
use event::Part;
use event::channels::with_channel;
use event::refusal::Refusal;

// Reads modules up to the end, or to the first longword that breaks a rule. (A module's length is known only once it is read: so a `while`.)
fn modules(words: &[u32], begun: Part, rows: &mut [u32]) -> Result<usize, Refusal>
    requires { Within words.now begun }
    ensures { Scanned (each module_rows) (many one_module geos ended [] begun.next (drop begun.next words.now)) begun.count rows.old result rows.new }
{
    let mut read = begun;
    let mut seen: u32 = 0;
    while read.next < words.len() {
        let geo = geo_of(word(words, read.next));
        read = module(words, read, seen, rows)?;
        seen = with_channel(seen, geo);
    }
    Ok(read.count)
}

// Reads the event up to the first longword that breaks a rule.
pub(crate) fn scan(words: &[u32], rows: &mut [u32]) -> Result<usize, Refusal>
    ensures { Scanned rows_of (event_parser (length words.now) 0 words.now) 0 rows.old result rows.new }
{
    let begun = begin(words, rows)?;
    modules(words, begun, rows)
}
