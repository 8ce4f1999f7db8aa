// The mathematics of path lists: one clause for each path of a table. No code.
#![tactic(auto)]
