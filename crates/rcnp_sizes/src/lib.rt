// Dialect R, the RCNP event: readings and writings of events at the largest size, computed (proofs/). They stand apart from rcnp_layout since they take longer than all else there.
#![tactic(auto)]
