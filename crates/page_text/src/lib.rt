// The text of a page (document 02, #107): its head, a picture of each connector, all counts, its last line.
#![tactic(auto)]

mod counts;
mod lines;
mod picture;

ghost use Rattle.std.specs.Prelude.{◌≡◌};
ghost use Rattle.page_text.specs.Text.{text_of_page};

use counts::{largest, total};
use lines::{put_counts, put_head, put_last};
use picture::put_pictures;

// The characters of a page.
pub const PAGE_TEXT: usize = 5956;

pub type PageText = [u8; PAGE_TEXT];

// A count for each pad.
pub type Counts = [u32; 256];

// How a page's lines ended: whether the input was cut, and the lines that were added, refused, and of other dialects.
#[derive(Drop)]
pub struct Ending {
    pub cut: bool,
    pub added: u64,
    pub refused: u64,
    pub other: u64,
}

// Puts the text of a page of so many events: its parts one behind another, which fill the text.
pub fn put_page(events: u64, counts: &Counts, ending: Ending, text: &mut PageText)
    ensures { text.new ≡ text_of_page events counts.now ending.cut ending.added ending.refused ending.other }
{
    let most = largest(counts);
    let pictures_at = put_head(text, events, total(counts), most);
    let counts_at = put_pictures(text, pictures_at, counts, most);
    let last_at = put_counts(text, counts_at, counts);
    put_last(text, last_at, ending);
}
