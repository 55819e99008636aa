// What closing a year comes to: when it is refused, what it leaves, and what later calls answer for a closed year. Statements in specs/, proofs in proofs/. No code.
#![tactic(auto)]
