// One module: what its header leads to, its data longwords and their rows, its footer.
ghost use Rattle.std.specs.Prelude.{◌/◌, ◌<◌, ◌≤◌, ◌≡◌, map, length};
ghost use Rattle.event.specs.Rows.{store_row};
ghost use Rattle.event.specs.Scanning.{store_rows};
ghost use Rattle.frs_reader.specs.Beginning.{Within};
ghost use Rattle.frs_reader.specs.Modules.{opened_of, row_of, ValuesJudged, ReadsModule};

use crate::longword::{channel_of, check_footer, check_header, check_value, flag_of, geo_of, word};
use event::channels::with_channel;
use event::kind::Kind;
use event::refusal::{Fault, Refusal, refuse};
use event::rows::{fitting, store_row};
use event::{Part, Row};

// What a module's header leads to: the module's own row, and where its footer stands; none stands after a module without data.
#[derive(Clone, Copy)]
pub(crate) struct Opened {
    row: Row,
    end: Option<usize>,
}

// Refusals 6, 11 and 5 of the header at `at`; else the module's own row. Its counter stands in the footer, which is judged after the data.
fn open_module(words: &[u32], at: usize, seen: u32) -> Result<Opened, Refusal>
    requires { at < length words.now }
    ensures { result ≡ opened_of words.now at seen }
{
    let w = word(words, at);
    check_header(seen, w, at)?;
    let geo = geo_of(w);
    if flag_of(w) == 6 {
        let row = Row {
            kind: Kind::EmptyModule as u32,
            unit: geo,
            channel: 0,
            datum: 0,
        };
        return Ok(Opened { row, end: None });
    }
    let n = w % 64;
    let end = at + 1 + n as usize;
    if words.len() <= end {
        return refuse(Fault::Extent, at);
    }
    let row = Row {
        kind: Kind::Module as u32,
        unit: geo,
        channel: n,
        datum: word(words, end) % 0x0001_0000,
    };
    Ok(Opened {
        row,
        end: Some(end),
    })
}

// The data longwords from `first` up to `end`.
fn check_values(words: &[u32], first: usize, end: usize, geo: u32) -> Result<(), Refusal>
    requires { (first ≤ end) × (end ≤ length words.now) × (geo < 32) }
    ensures { ValuesJudged geo words.now first end result }
{
    let mut channels: u32 = 0;
    for at in first..end {
        let w = word(words, at);
        check_value(geo, channels, w, at)?;
        channels = with_channel(channels, channel_of(w));
    }
    Ok(())
}

// Stores the rows of the data longwords, those that fit, from row `at` on.
fn store_values(longwords: &[u32], geo: u32, rows: &mut [u32], at: usize)
    ensures { rows.new ≡ store_rows rows.old at (map (row_of geo) longwords.now) }
{
    let most = fitting(longwords.len(), at, rows.len() / 4);
    for i in 0..most {
        store_value(rows, at + i, geo, word(longwords, i));
    }
}

// The row of a data longword. (It fits, so that the loop over them has no test of the room.)
fn store_value(rows: &mut [u32], at: usize, geo: u32, w: u32)
    requires { at < length rows.old / 4 }
    ensures { rows.new ≡ store_row rows.old at (row_of geo w) }
{
    let i = at * 4;
    rows[i] = Kind::Value as u32;
    rows[i + 1] = geo;
    rows[i + 2] = channel_of(w);
    rows[i + 3] = w % frs_format::DATUM_END;
}

// The module at a place, after the rows counted. Its data longwords are judged first, and their rows stored together, behind its footer's test.
pub(crate) fn module(
    words: &[u32],
    from: Part,
    seen: u32,
    rows: &mut [u32],
) -> Result<Part, Refusal>
    requires { Within words.now from × (from.next < length words.now) }
    ensures { ReadsModule seen words.now from rows.old rows.new result }
{
    let opened = open_module(words, from.next, seen)?;
    let first = from.next + 1;
    let count = from.count + 1;
    store_row(rows, from.count, opened.row);
    let Some(end) = opened.end else {
        return Ok(Part { next: first, count });
    };
    let geo = opened.row.unit;
    check_values(words, first, end, geo)?;
    check_footer(geo, word(words, end), end)?;
    store_values(&words[first..end], geo, rows, count);
    Ok(Part {
        next: end + 1,
        count: count + (end - first),
    })
}
