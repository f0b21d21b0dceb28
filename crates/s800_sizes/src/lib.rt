// Dialect S, the S800 event: readings and writings of events at the largest size, computed (proofs/). They stand apart from s800_layout since they take longer than all else there.
#![tactic(auto)]
