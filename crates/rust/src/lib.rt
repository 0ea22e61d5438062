// The Rust's functions on values stand in specs/, and the laws that ours are the same in proofs/; there is no code.
#![tactic(auto)]
