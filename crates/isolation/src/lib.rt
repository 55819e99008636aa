// Condition 3 for any machine whose calls name one body or none, and the ways to prove it of one. No code: specs/ is the statement, proofs/ the rest.
#![tactic(auto)]
