// That one body's plain list and its slots in a table give the same answers and outcomes: definitions in specs/, proof in proofs/. No code.
#![tactic(auto)]
