// The calls of the page over plain numbers: what second/ compares with the second reader. page_calls_c exports them. A page is 66 numbers in a lent buffer, its first
// slot, its events and the 64 lengths; an answer is two, as document 02 has them. What is put is put at the front of the buffer lent for it, where there is room for
// all of it.
#![tactic(auto)]

mod numbers;

ghost use Rattle.std.specs.Prelude.{◌≡◌, length};
ghost use Rattle.page_layout.specs.Plane.{by_pad};
ghost use Rattle.page_layout.specs.Page.{cleared, added, added_room, dropped, finding, read_back, seeing, plane_in};
ghost use Rattle.page_calls.specs.Calls.{page_of, page_put, answer_put, all_put};

use numbers::{page_of, put, put_answer, put_page};

pub fn page_clear(page: &mut [u64])
    ensures { page.new ≡ page_put cleared page.old }
{
    put_page(&page::clear(), page);
}

pub fn page_add(page: &mut [u64], words: &[u16], room: &mut [u16], answer: &mut [u64])
    ensures page { page.new ≡ page_put (added (page_of page.old) words.now (length room.old)).page page.old }
    ensures room { room.new ≡ added_room (page_of page.old) words.now room.old }
    ensures answer { answer.new ≡ answer_put (added (page_of page.old) words.now (length room.old)).answer answer.old }
{
    let mut next = page_of(page);
    put_answer(page::add(&mut next, words, room), answer);
    put_page(&next, page);
}

pub fn page_drop(page: &mut [u64], room: &[u16], answer: &mut [u64])
    ensures page { page.new ≡ page_put (dropped (page_of page.old) (length room.now)).page page.old }
    ensures answer { answer.new ≡ answer_put (dropped (page_of page.old) (length room.now)).answer answer.old }
{
    let mut next = page_of(page);
    put_answer(page::drop_oldest(&mut next, room), answer);
    put_page(&next, page);
}

pub fn page_find(page: &[u64], room: &[u16], k: u64, answer: &mut [u64])
    ensures { answer.new ≡ answer_put (finding (page_of page.now) (length room.now) k) answer.old }
{
    put_answer(page::find_event(&page_of(page), room, k as usize), answer);
}

pub fn page_event(page: &[u64], room: &[u16], k: u64, words: &mut [u16])
    ensures { words.new ≡ all_put (read_back (page_of page.now) room.now k) words.old }
{
    put(page::event(&page_of(page), room, k as usize), words);
}

pub fn page_find_plane(page: &[u64], room: &[u16], answer: &mut [u64])
    ensures { answer.new ≡ answer_put (seeing (page_of page.now) (length room.now)) answer.old }
{
    put_answer(page::find_plane(&page_of(page), room), answer);
}

pub fn page_plane(page: &[u64], room: &[u16], counts: &mut [u32])
    ensures { counts.new ≡ all_put (by_pad (plane_in (page_of page.now) room.now)) counts.old }
{
    put(&page::counts(&page_of(page), room), counts);
}
