// No code: demand 3 over the rulebook's steps.
#![tactic(auto)]
