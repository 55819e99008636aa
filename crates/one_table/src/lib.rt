// That bank, codes, slots and records fix every byte of a valid table 2: statement in specs/, proof in proofs/. No code.
#![tactic(auto)]
