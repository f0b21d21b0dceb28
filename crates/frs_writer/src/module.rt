// One module.
ghost use Rattle.std.specs.Prelude.{◌^◌, ◌≤◌, ◌<◌, [], length, drop};
ghost use Rattle.event.specs.Parser.{times, each};
ghost use Rattle.event.specs.Writing.{rows_in};
ghost use Rattle.event.specs.Scanning.{Writes};
ghost use Rattle.frs_layout.specs.Layout.{channels};
ghost use Rattle.frs_layout.specs.Writing.{value};
ghost use Rattle.frs_writer.specs.Parts.{value_words, WritesModule};

use crate::fault::{check_header, check_value};
use crate::longword::{longword, store};
use event::Part;
use event::channels::with_channel;
use event::kind::Kind;
use event::refusal::Refusal;
use event::rows::row_at;

// The n values of the module with this GEO, from row `first` on, as longwords after its header.
fn write_values(
    rows: &[u32],
    first: usize,
    geo: u32,
    n: u32,
    words: &mut [u32],
) -> Result<Part, Refusal>
    requires { (1 ≤ first) × (first ≤ length (rows_in rows.now)) × (geo < 2 ^ 5) × (n ≤ 32) }
    ensures { Writes 32 (each (value_words geo)) (times (value geo) channels n [] first (drop first (rows_in rows.now))) (rows_in rows.now) 1 words.old result words.new }
{
    let count = n as usize;
    let mut seen: u32 = 0;
    for k in 0..count {
        let row = row_at(rows, first + k);
        check_value(geo, seen, row, first + k)?;
        store(
            words,
            1 + k,
            longword(geo, 0, row.channel * 0x0001_0000 + row.datum),
        );
        seen = with_channel(seen, row.channel);
    }
    Ok(Part {
        next: first + count,
        count: 1 + count,
    })
}

// The module that begins at row `at`, at the front of the words. The set has the GEOs before it.
pub(crate) fn write_module(
    rows: &[u32],
    at: usize,
    seen: u32,
    words: &mut [u32],
) -> Result<Part, Refusal>
    requires { at ≤ length (rows_in rows.now) }
    ensures { WritesModule seen (rows_in rows.now) at words.old result words.new }
{
    let row = row_at(rows, at);
    check_header(seen, row, at)?;
    if row.kind == Kind::EmptyModule as u32 {
        store(words, 0, longword(row.unit, 6, 0));
        return Ok(Part {
            next: at + 1,
            count: 1,
        });
    }
    let values = write_values(rows, at + 1, row.unit, row.channel, words)?;
    store(words, 0, longword(row.unit, 2, row.channel));
    store(words, values.count, longword(row.unit, 4, row.datum));
    Ok(Part {
        next: values.next,
        count: values.count + 1,
    })
}
