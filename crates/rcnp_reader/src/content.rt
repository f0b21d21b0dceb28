// The words of a region: opaque words, scalers, the words of a VDC region. Each function takes those from `first` up to `end`, with rows from row `at` on.
ghost use Rattle.std.specs.Prelude.{ℕ, ◌-◌, ◌/◌, ◌%◌, ◌≤◌, ◌<◌, ◌≡◌, map, length};
ghost use Rattle.std.proofs.Math.Seq.{slice};
ghost use Rattle.event.specs.declared.Row.{Row};
ghost use Rattle.event.specs.Rows.{store_row};
ghost use Rattle.event.specs.Scanning.{store_rows, Scanned};
ghost use Rattle.rcnp_layout.specs.Event.{scaler};
ghost use Rattle.rcnp_layout.specs.Layout.{word_row, content_rows};
ghost use Rattle.rcnp_layout.specs.Reading.{content};
ghost use Rattle.rcnp_reader.specs.Regions.{vdc_word_row};

use crate::word::word;
use event::Row;
use event::kind::Kind;
use event::refusal::{Fault, Refusal, refuse};
use event::rows::{fitting, store_row};
use event::words::pick;

// What a word of a region is as a row. (A type and no closure, so that its contract can name the row.)
pub(crate) trait WordRow {
    ghost row_of: { ℕ → Row };

    fn row(word: u32) -> Row
        ensures { result ≡ row_of word };
}

// A word as it stands, not looked at otherwise.
pub(crate) struct Opaque;

impl WordRow for Opaque {
    ghost row_of = { word_row };

    fn row(word: u32) -> Row {
        Row {
            kind: Kind::RegionWord as u32,
            unit: 0,
            channel: 0,
            datum: word,
        }
    }
}

// A word of the vertical drift chamber, which was judged.
pub(crate) struct Chamber;

impl WordRow for Chamber {
    ghost row_of = { vdc_word_row };

    // A module's header: module in bits 7-0, bits 13-11, bits 10-8. A datum: channel in bits 14-10, time in bits 9-0. (Each field is chosen, so that the loop over
    // the words has no branch by their kind.)
    fn row(word: u32) -> Row {
        let head = 0x8000 <= word;
        Row {
            kind: pick(head, Kind::VdcModule as u32, Kind::VdcDatum as u32),
            unit: pick(head, word % 256, 0),
            channel: pick(head, word / 2048 % 8, word / 1024),
            datum: pick(head, word / 256 % 8, word % 1024),
        }
    }
}

// Stores a row for each word, those that fit.
pub(crate) fn store_words<W: WordRow>(
    words: &[u16],
    first: usize,
    end: usize,
    rows: &mut [u32],
    at: usize,
)
    requires { (first ≤ end) × (end ≤ length words.now) }
    ensures { rows.new ≡ store_rows rows.old at (map W.row_of (slice first end words.now)) }
{
    for i in 0..fitting(end - first, at, rows.len() / 4) {
        put_row(rows, at + i, W::row(word(words, first + i)));
    }
}

// Stores a row that fits: `event::rows::store_row` without its test of the room, which the loop would make for each word.
fn put_row(rows: &mut [u32], at: usize, row: Row)
    requires { at < length rows.old / 4 }
    ensures { rows.new ≡ store_row rows.old at row }
{
    let i = at * 4;
    rows[i] = row.kind;
    rows[i + 1] = row.unit;
    rows[i + 2] = row.channel;
    rows[i + 3] = row.datum;
}

// Scalers, two words each: low 16 bits, then the upper 8 bits with zero above.
pub(crate) fn scalers(
    words: &[u16],
    first: usize,
    end: usize,
    rows: &mut [u32],
    at: usize,
) -> Result<usize, Refusal>
    requires { (first ≤ end) × (end ≤ length words.now) × ((end - first) % 2 ≡ 0) × (end - first < 4096) × (at ≤ first) }
    ensures { Scanned (content_rows scaler) (content scaler first (slice first end words.now)) at rows.old result rows.new }
{
    let n = (end - first) / 2;
    for index in 0..n {
        let place = first + 2 * index;
        let high = word(words, place + 1);
        if 0xff < high {
            return refuse(Fault::Data, place + 1);
        }
        let row = Row {
            kind: Kind::RegionScaler as u32,
            unit: 0,
            channel: index as u32,
            datum: high * 0x0001_0000 + word(words, place),
        };
        store_row(rows, at + index, row);
    }
    Ok(at + n)
}
