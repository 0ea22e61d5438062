// The promises: theorems over the contracts and definitions of every library, for a customer to read. They stand in proofs/, and there is no code.
#![tactic(auto)]
