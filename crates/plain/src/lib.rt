// What the plain engine of the training room answers and leaves, call by call: definitions in specs/. No code.
#![tactic(auto)]
