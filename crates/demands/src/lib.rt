// What a user may rely on: each promise as theorems about the definitions that the contracts cite. No code.
#![tactic(auto)]
