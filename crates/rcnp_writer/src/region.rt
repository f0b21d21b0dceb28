// One region before the check sum, judged.
ghost use Rattle.std.specs.Prelude.{◌≤◌, length, drop};
ghost use Rattle.event.specs.Writing.{rows_in};
ghost use Rattle.rcnp_layout.specs.Event.{form_of};
ghost use Rattle.rcnp_layout.specs.Layout.{content_words, region_words};
ghost use Rattle.rcnp_layout.specs.Writing.{content, region};
ghost use Rattle.rcnp_writer.specs.Parts.{ContentAt, Counts};

use crate::content::{judge_chamber, judge_scalers, judge_words};
use crate::fault::check_header;
use event::Part;
use event::refusal::Refusal;
use event::rows::row_at;
use rcnp_format::Form;

// The rows of the region with this id and size, whose own row stands before row `first`. (The input register is one word as it is.)
fn judge_content(rows: &[u32], first: usize, id: u32, size: u32) -> Result<Part, Refusal>
    requires { ContentAt (rows_in rows.now) first id size }
    ensures { Counts (content_words (form_of id)) (content (form_of id) size first (drop first (rows_in rows.now))) (rows_in rows.now) 1 result }
{
    if id == Form::Scaler as u32 {
        return judge_scalers(rows, first, size / 2);
    }
    if id == Form::Vdc as u32 {
        return judge_chamber(rows, first, size);
    }
    judge_words(rows, first, size)
}

// The region whose own row is row `at`.
pub(crate) fn judge_region(rows: &[u32], at: usize) -> Result<Part, Refusal>
    requires { at ≤ length (rows_in rows.now) }
    ensures { Counts region_words (region at (drop at (rows_in rows.now))) (rows_in rows.now) 0 result }
{
    let row = row_at(rows, at);
    check_header(row, at)?;
    judge_content(rows, at + 1, row.unit, row.channel)
}
