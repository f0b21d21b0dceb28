// One pass over the rows, which stores a longword only where there is room: with no room it counts.
ghost use Rattle.std.specs.Prelude.{◌*◌, ◌≤◌, [], length, drop};
ghost use Rattle.event.specs.Parser.{ended, many, each};
ghost use Rattle.event.specs.Writing.{rows_in};
ghost use Rattle.event.specs.Scanning.{writing_all, ScannedBy, Writes};
ghost use Rattle.frs_layout.specs.Layout.{module_words, words as words_of, geos};
ghost use Rattle.frs_layout.specs.Writing.{one_module, event_rows_up_to};

use crate::begin::begin;
use crate::module::write_module;
use event::Part;
use event::channels::with_channel;
use event::refusal::Refusal;
use event::rows::row_at;
use event::words::part_start;

// The modules after what is written, each in the part of the words that starts at its place. (How many rows a module has is known only once it is written: so a
// `while`.)
fn write_modules(rows: &[u32], begun: Part, words: &mut [u32]) -> Result<Part, Refusal>
    requires { (begun.next ≤ length (rows_in rows.now)) × (begun.count ≤ 4 * begun.next) }
    ensures { Writes 32 (each module_words) (many one_module geos ended [] begun.next (drop begun.next (rows_in rows.now))) (rows_in rows.now) begun.count words.old result words.new }
{
    let mut written = begun;
    let mut seen: u32 = 0;
    while written.next < rows.len() / 4 {
        let row = row_at(rows, written.next);
        let start = part_start(written.count, words.len());
        let module = write_module(rows, written.next, seen, &mut words[start..])?;
        seen = with_channel(seen, row.unit);
        written = Part {
            next: module.next,
            count: written.count + module.count,
        };
    }
    Ok(written)
}

// Writes the event's longwords, up to the first row that breaks a rule.
pub(crate) fn write_event(rows: &[u32], words: &mut [u32]) -> Result<usize, Refusal>
    ensures { ScannedBy (writing_all 32) words_of (event_rows_up_to ended 0 (rows_in rows.now)) 0 words.old result words.new }
{
    let begun = begin(rows, words)?;
    let written = write_modules(rows, begun, words)?;
    Ok(written.count)
}
