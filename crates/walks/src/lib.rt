// No code: laws of the rulebook's walks over numbers, in proofs/, for the loops of the crates above.
#![tactic(auto)]
