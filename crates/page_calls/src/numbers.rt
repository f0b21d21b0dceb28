// Pages, answers, words and counts as numbers in lent buffers.
ghost use Rattle.std.specs.Prelude.{◌≡◌, length, get_or};
ghost use Rattle.page_calls.specs.Calls.{page_of, page_put, answer_put, all_put};

use event::refusal::Refusal;
use event::{count_or_place, refusal_number};
use page_layout::Page;

const SLOTS: usize = 64;

// The page of these numbers; those that are missing are 0.
pub(crate) fn page_of(numbers: &[u64]) -> Page
    ensures { result ≡ page_of numbers.now }
{
    let mut lengths = [0usize; SLOTS];
    for k in 0..SLOTS {
        lengths[k] = number(numbers, 2 + k);
    }
    Page {
        first: number(numbers, 0),
        count: number(numbers, 1),
        lengths,
    }
}

fn number(numbers: &[u64], index: usize) -> usize
    ensures { result ≡ get_or numbers.now index 0 }
{
    match numbers.get(index) {
        Some(number) => *number as usize,
        None => 0,
    }
}

pub(crate) fn put_page(page: &Page, numbers: &mut [u64])
    ensures { numbers.new ≡ page_put page.now numbers.old }
{
    if numbers.len() < 2 + SLOTS {
        return;
    }
    numbers[0] = page.first as u64;
    numbers[1] = page.count as u64;
    for k in 0..SLOTS {
        numbers[2 + k] = page.lengths[k] as u64;
    }
}

pub(crate) fn put_answer(answer: Result<usize, Refusal>, numbers: &mut [u64])
    ensures { numbers.new ≡ answer_put answer numbers.old }
{
    let told = [
        u64::from(refusal_number(answer)),
        count_or_place(answer) as u64,
    ];
    put(&told, numbers);
}

// Puts the items at the front of the buffer, where it has room for all of them. (A loop and no `copy_from_slice`, for which page_calls_c would ask C's library for
// memmove.)
pub(crate) fn put<T: Copy>(items: &[T], buffer: &mut [T])
    ensures { buffer.new ≡ all_put items.now buffer.old }
{
    let count = items.len();
    if count <= buffer.len() {
        for i in 0..count {
            buffer[i] = items[i];
        }
    }
}
