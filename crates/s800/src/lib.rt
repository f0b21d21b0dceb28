// Dialect S, one S800 event of version 5 (document 01): reading, writing, and the pad of a channel and a connector.
#![tactic(auto)]

pub use s800_format::pad;
pub use s800_reader::{check, read};
pub use s800_writer::write;
