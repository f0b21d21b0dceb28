// Pad hits over the events of a page, as a plane of four connectors by sixty-four channels.
ghost use Rattle.std.specs.Prelude.{ℕ, ◌+◌, ◌*◌, ◌≤◌, ◌<◌, ◌^◌, ◌≡◌, length};
ghost use Rattle.event.specs.Writing.{rows_in};
ghost use Rattle.page_layout.specs.Plane.{rows_of, at, by_pad, Shape, OnPlane};
ghost use Rattle.page_layout.specs.Page.{seeing, plane_in};
ghost use Rattle.page.specs.Counting.{with_hits};

use crate::slots::{check_sound, part};
use event::StampOrder;
use event::kind::Kind;
use event::refusal::Refusal;
use event::rows::row_at;
use page_layout::Page;

// The elements of the rows of the longest event held: it has no more rows than words.
const ELEMENTS: usize = 4 * crate::WORDS;

const PADS: usize = 256;

// Whether the events held can be counted: answers how many there are.
pub fn find_plane(page: &Page, room: &[u16]) -> Result<usize, Refusal>
    ensures { result ≡ seeing page.now (length room.now) }
{
    check_sound(page, room.len())?;
    Ok(page.count)
}

// How often each pad was hit in the events held; no hits where `find_plane` refuses.
pub fn plane(page: &Page, room: &[u16]) -> [[u32; 64]; 4]
    ensures { result ≡ plane_in page.now room.now }
{
    let mut plane = [[0u32; 64]; 4];
    let Ok(count) = find_plane(page, room) else {
        return plane;
    };
    let mut rows = [0u32; ELEMENTS];
    for k in 0..count {
        count_event(&mut plane, part(page, room, k), &mut rows);
    }
    plane
}

// The same counts in the order of the pads.
pub fn counts(page: &Page, room: &[u16]) -> [u32; PADS]
    ensures { result ≡ by_pad (plane_in page.now room.now) }
{
    by_pad(plane(page, room))
}

fn by_pad(plane: [[u32; 64]; 4]) -> [u32; PADS]
    ensures { result ≡ by_pad plane }
{
    let mut counts = [0u32; PADS];
    for pad in 0..PADS {
        counts[pad] = plane[pad / 64][pad % 64];
    }
    counts
}

// Counts the hits of an event into the plane; words that are no acceptable event have none. The rows stand in `rows` meanwhile.
fn count_event(plane: &mut [[u32; 64]; 4], words: &[u16], rows: &mut [u32])
    requires { Shape plane.old × (4 * length words.now ≤ length rows.old) × ((p : ℕ) → p < 256 → at plane.old p + length words.now < 2 ^ 32) }
    ensures { plane.new ≡ with_hits (rows_of words.now) plane.old }
{
    let Ok(count) = s800::read(words, StampOrder::default(), rows) else {
        return;
    };
    let end = count * 4;
    count_rows(plane, &rows[..end])
}

// Counts the hits of the rows into the plane.
fn count_rows(plane: &mut [[u32; 64]; 4], rows: &[u32])
    requires { Shape plane.old × OnPlane (rows_in rows.now) × ((p : ℕ) → p < 256 → at plane.old p + length (rows_in rows.now) < 2 ^ 32) }
    ensures { plane.new ≡ with_hits (rows_in rows.now) plane.old }
{
    for i in 0..rows.len() / 4 {
        let row = row_at(rows, i);
        if row.kind == Kind::SampleDatum as u32 {
            let pad = row.channel as usize;
            plane[pad / 64][pad % 64] += 1;
        }
    }
}
