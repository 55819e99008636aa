// What the calls' promises come to: the three conditions, no second answer, cash by history. No code: specs/ has the statements, proofs/ the rest.
#![tactic(auto)]
