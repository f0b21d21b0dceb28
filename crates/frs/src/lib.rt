// Dialect F, one FRS VME event (document 01): reading and writing.
#![tactic(auto)]

pub use frs_reader::read;
pub use frs_writer::write;
