// Rebuilding on values, for any key: definitions in specs/, laws in proofs/, no code.

#![tactic(auto)]
