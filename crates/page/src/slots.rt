// The slots of a page, and what is tested before an event is added.
ghost use Rattle.std.specs.Prelude.{◌+◌, ◌<◌, ◌≤◌, ◌≡◌, true, length, Ok, Err};
ghost use Rattle.std.proofs.Math.Seq.{paste};
ghost use Rattle.event.specs.Refusal.{verdict};
ghost use Rattle.page_layout.specs.Plane.{table};
ghost use Rattle.page_layout.specs.Page.{most_words, slot_of, length_of, event_at, all_up_to, sound, adding};
ghost use Rattle.page.specs.Found.{page_fault};

use crate::{EVENTS, ROOM, WORDS};
use event::StampOrder;
use event::refusal::{Fault, Refusal, refuse};
use page_layout::Page;

// The slot of event k, oldest first.
pub(crate) fn slot(page: &Page, k: usize) -> usize
    ensures { result ≡ slot_of page.now k }
{
    (page.first % EVENTS + k % EVENTS) % EVENTS
}

// Every event held has at most 1,024 words.
fn all_short(page: &Page) -> bool
    ensures { result ≡ all_up_to most_words (table page.now.count (length_of page.now)) }
{
    for k in 0..page.count {
        if WORDS < page.lengths[slot(page, k)] {
            return false;
        }
    }
    true
}

// The room is enough, and the page holds at most 64 events, each of at most 1,024 words.
pub(crate) fn check_sound(page: &Page, room: usize) -> Result<(), Refusal>
    ensures { result ≡ verdict (page_fault page.now room) 0 }
{
    if room < ROOM || EVENTS < page.count || !all_short(page) {
        return refuse(Fault::Page, 0);
    }
    Ok(())
}

// Whether an event is to be added: answers the events then held.
pub(crate) fn judge(page: &Page, words: &[u16], room: usize) -> Result<usize, Refusal>
    ensures { result ≡ adding page.now words.now room }
{
    check_sound(page, room)?;
    s800::check(words, StampOrder::default())?;
    if WORDS < words.len() {
        return refuse(Fault::LongEvent, words.len());
    }
    Ok(EVENTS.min(page.count + 1))
}

// Copies the words into the room, from `at` on. (A loop and no `copy_from_slice`, for which page_calls_c would ask C's library for memmove.)
pub(crate) fn copy_into(room: &mut [u16], at: usize, words: &[u16])
    requires { at + length words.now ≤ length room.old }
    ensures { room.new ≡ paste room.old at words.now (length words.now) }
{
    for i in 0..words.len() {
        room[at + i] = words[i];
    }
}

// The words of event k, as part of the room.
pub(crate) fn part<'a>(page: &Page, room: &'a [u16], k: usize) -> &'a [u16]
    requires { (sound page.now (length room.now) ≡ true) × (k < page.now.count) }
    ensures { result.now ≡ event_at page.now room.now k }
{
    let slot = slot(page, k);
    let at = WORDS * slot;
    let end = at + page.lengths[slot];
    &room[at..end]
}
