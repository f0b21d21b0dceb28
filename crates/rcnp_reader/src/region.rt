// One region before the check sum: its header, and what its words give.
ghost use Rattle.std.specs.Prelude.{◌≤◌, ◌<◌, ◌≡◌, length};
ghost use Rattle.rcnp_format.specs.Form.{form as layout_form};
ghost use Rattle.rcnp_reader.specs.Regions.{Headed, Opens};

use crate::Opened;
use crate::content::{Opaque, scalers, store_words};
use crate::word::word;
use event::kind::Kind;
use event::refusal::{Fault, Refusal, refuse};
use event::rows::store_row;
use event::{Part, Row};
use rcnp_format::Form;

// Refusals 6, 5 and 7 of the header at `at`, then the region; the words of a VDC region are left to the caller.
// Id in bits 15-12, size in bits 11-0.
pub(crate) fn open_region(
    words: &[u16],
    at: usize,
    rows: &mut [u32],
    count: usize,
) -> Result<Opened, Refusal>
    requires { (at < length words.now) × (count ≤ at) }
    ensures { Opens words.now at count rows.old rows.new result }
{
    let header = word(words, at);
    let Some(form) = Form::of(header / 4096) else {
        return refuse(Fault::Tag, at);
    };
    let size = header % 4096;
    if words.len() - at <= size as usize {
        return refuse(Fault::Extent, at);
    }
    if !form.allows_size(size) {
        return refuse(Fault::Length, at);
    }
    read_region(words, at, form, size, rows, count)
}

// The region at `at` of this form and size, which it may have: its own row, and its content.
fn read_region(
    words: &[u16],
    at: usize,
    form: Form,
    size: u32,
    rows: &mut [u32],
    count: usize,
) -> Result<Opened, Refusal>
    requires { Headed words.now at (layout_form form) size × (count ≤ at) }
    ensures { Opens words.now at count rows.old rows.new result }
{
    let row = Row {
        kind: Kind::Region as u32,
        unit: form.id(),
        channel: size,
        datum: 0,
    };
    store_row(rows, count, row);
    let first = at + 1;
    let end = first + size as usize;
    match form {
        Form::Vdc => Ok(Opened::Chamber { end }),
        Form::Scaler => {
            let count = scalers(words, first, end, rows, count + 1)?;
            Ok(Opened::Whole(Part { next: end, count }))
        }
        _ => {
            store_words::<Opaque>(words, first, end, rows, count + 1);
            let count = count + 1 + (end - first);
            Ok(Opened::Whole(Part { next: end, count }))
        }
    }
}
