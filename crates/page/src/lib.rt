// The calls of a page of recent events (document 02, #107): the last 64 accepted events of dialect S, each of at most 1,024 words, in lent room. A refusal leaves
// page and room as they were. The page and its room stay two arguments: `add` alone borrows the room to write, so that one struct of both would need a second for it.
#![tactic(auto)]

mod hits;
mod slots;

ghost use Rattle.std.specs.Prelude.{◌≡◌, length};
ghost use Rattle.page_layout.specs.Page.{cleared, added, added_room, dropped, finding, read_back};

use event::refusal::{Fault, Refusal, refuse};
pub use hits::{counts, find_plane, plane};
use page_layout::Page;
use slots::{check_sound, copy_into, judge, part, slot};

// The events that a page holds at most, the words of each at most, and the words that the room for them has at least.
pub const EVENTS: usize = 64;

pub const WORDS: usize = 1024;

pub const ROOM: usize = EVENTS * WORDS;

// A page that holds nothing.
pub fn clear() -> Page
    ensures { result ≡ cleared }
{
    Page {
        first: 0,
        count: 0,
        lengths: [0; EVENTS],
    }
}

// Adds an event; where 64 are held the oldest leaves. Answers the events then held.
pub fn add(page: &mut Page, words: &[u16], room: &mut [u16]) -> Result<usize, Refusal>
    ensures answer { result ≡ (added page.old words.now (length room.old)).answer }
    ensures page { page.new ≡ (added page.old words.now (length room.old)).page }
    ensures room { room.new ≡ added_room page.old words.now room.old }
{
    let count = judge(page, words, room.len())?;
    let newest = slot(page, page.count);
    copy_into(&mut *room, WORDS * newest, words);
    page.lengths[newest] = words.len();
    if page.count < EVENTS {
        page.count = count;
    } else {
        page.first = slot(page, 1);
    }
    Ok(count)
}

// Drops the oldest event. Answers the events then held.
pub fn drop_oldest(page: &mut Page, room: &[u16]) -> Result<usize, Refusal>
    ensures answer { result ≡ (dropped page.old (length room.now)).answer }
    ensures page { page.new ≡ (dropped page.old (length room.now)).page }
{
    check_sound(page, room.len())?;
    if page.count == 0 {
        return refuse(Fault::NoEvent, 0);
    }
    page.first = slot(page, 1);
    page.count -= 1;
    Ok(page.count)
}

// Whether event k, oldest first, is held: answers its words.
pub fn find_event(page: &Page, room: &[u16], k: usize) -> Result<usize, Refusal>
    ensures { result ≡ finding page.now (length room.now) k }
{
    check_sound(page, room.len())?;
    if page.count <= k {
        return refuse(Fault::NoEvent, 0);
    }
    Ok(page.lengths[slot(page, k)])
}

// The words of event k, oldest first, as part of the room; none where `find_event` refuses.
pub fn event<'a>(page: &Page, room: &'a [u16], k: usize) -> &'a [u16]
    ensures { result.now ≡ read_back page.now room.now k }
{
    let Ok(_) = find_event(page, room, k) else {
        return &room[..0];
    };
    part(page, room, k)
}
