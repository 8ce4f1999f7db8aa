// The mathematics that every contract cites: definitions in specs/, laws in proofs/. No code.
#![tactic(auto)]
