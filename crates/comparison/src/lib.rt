// The comparison of two events of one dialect (document 02, #104) as definitions, and what it lists. Crate compare has the calls.
#![tactic(auto)]

// How many entries the word list and the row list got.
#[derive(Clone, Copy, Debug, PartialEq, Eq)]
pub struct Listed {
    pub words: usize,
    pub rows: usize,
}
