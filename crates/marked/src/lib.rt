// The marked cases P1 to P12. No code: specs/ has the cases, proofs/ that they hold.
#![tactic(auto)]
