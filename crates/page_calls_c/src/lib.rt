// The calls of page_calls in C's calling convention, as a static library: second/page_calls.c declares them.
#![tactic(auto)]

ghost use Rattle.std.specs.Prelude.{◌≡◌, length};
ghost use Rattle.page_layout.specs.Plane.{by_pad};
ghost use Rattle.page_layout.specs.Page.{cleared, added, added_room, dropped, finding, read_back, seeing, plane_in};
ghost use Rattle.page_calls.specs.Calls.{page_of, page_put, answer_put, all_put};

#[unsafe(no_mangle)]
pub extern "C" fn page_clear(page: &mut [u64])
    ensures { page.new ≡ page_put cleared page.old }
{
    page_calls::page_clear(page);
}

#[unsafe(no_mangle)]
pub extern "C" fn page_add(page: &mut [u64], words: &[u16], room: &mut [u16], answer: &mut [u64])
    ensures page { page.new ≡ page_put (added (page_of page.old) words.now (length room.old)).page page.old }
    ensures room { room.new ≡ added_room (page_of page.old) words.now room.old }
    ensures answer { answer.new ≡ answer_put (added (page_of page.old) words.now (length room.old)).answer answer.old }
{
    page_calls::page_add(page, words, room, answer);
}

#[unsafe(no_mangle)]
pub extern "C" fn page_drop(page: &mut [u64], room: &[u16], answer: &mut [u64])
    ensures page { page.new ≡ page_put (dropped (page_of page.old) (length room.now)).page page.old }
    ensures answer { answer.new ≡ answer_put (dropped (page_of page.old) (length room.now)).answer answer.old }
{
    page_calls::page_drop(page, room, answer);
}

#[unsafe(no_mangle)]
pub extern "C" fn page_find(page: &[u64], room: &[u16], k: u64, answer: &mut [u64])
    ensures { answer.new ≡ answer_put (finding (page_of page.now) (length room.now) k) answer.old }
{
    page_calls::page_find(page, room, k, answer);
}

#[unsafe(no_mangle)]
pub extern "C" fn page_event(page: &[u64], room: &[u16], k: u64, words: &mut [u16])
    ensures { words.new ≡ all_put (read_back (page_of page.now) room.now k) words.old }
{
    page_calls::page_event(page, room, k, words);
}

#[unsafe(no_mangle)]
pub extern "C" fn page_find_plane(page: &[u64], room: &[u16], answer: &mut [u64])
    ensures { answer.new ≡ answer_put (seeing (page_of page.now) (length room.now)) answer.old }
{
    page_calls::page_find_plane(page, room, answer);
}

#[unsafe(no_mangle)]
pub extern "C" fn page_plane(page: &[u64], room: &[u16], counts: &mut [u32])
    ensures { counts.new ≡ all_put (by_pad (plane_in (page_of page.now) room.now)) counts.old }
{
    page_calls::page_plane(page, room, counts);
}
