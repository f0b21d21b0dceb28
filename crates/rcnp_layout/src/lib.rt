// Dialect R, the RCNP regions: its layout as definitions (specs/) with theorems (proofs/). The code stands in crates above.
#![tactic(auto)]
