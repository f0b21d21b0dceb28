// Dialect R, one event of RCNP regions (document 02, #101): reading and writing.
#![tactic(auto)]

pub use rcnp_reader::read;
pub use rcnp_writer::write;
