// That the first TARGET day which `target_days` answers is the first one, comes within four days and never falls outside the served years: statement in
// specs/, proof in proofs/, by computing all 35,794 days. No code: it stands apart from `target_days`, whose check it would double.
#![tactic(auto)]
