// The markup as a grammar that says nothing of how it is read, and the proof that the reader's definitions accept exactly its flows. No code.
#![tactic(auto)]
