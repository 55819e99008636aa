// Witnesses of the promises. No code: specs/ has the flows, proofs/ the rest.
#![tactic(auto)]
