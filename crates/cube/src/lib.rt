// The mathematics of building: clauses set one after another, and what a list means. No code.
#![tactic(auto)]
