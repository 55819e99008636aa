// That a body's plain list is in order of arrival, and never longer than its slots: definitions in specs/, proof in proofs/. No code.
#![tactic(auto)]
