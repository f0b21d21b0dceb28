// A page of recent events (document 02, #107), as definitions.
#![tactic(auto)]

// `count` events, oldest first in slots first, first + 1, .. round the 64; `lengths` has the number of words of the event in each slot. Slot s of the room is its
// words 1,024 s to 1,024 s + 1,023. Any numbers may stand in a page.
#[derive(Clone, Copy, Debug, PartialEq, Eq)]
pub struct Page {
    pub first: usize,
    pub count: usize,
    pub lengths: [usize; 64],
}
