// No code: laws of the rulebook's definitions, which the theorems and the code's proofs use.
#![tactic(auto)]
