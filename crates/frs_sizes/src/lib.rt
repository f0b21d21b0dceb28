// Dialect F, the FRS VME event: writings of the largest event, computed (proofs/). They stand apart from frs_layout since they take longer than all else there.
#![tactic(auto)]
