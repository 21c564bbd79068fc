// No code: document 01 as definitions, in specs/, and the few claims that give them teeth, in proofs/.
#![tactic(auto)]
