// The short list's rule: definitions and laws, no code.
#![tactic(auto)]
