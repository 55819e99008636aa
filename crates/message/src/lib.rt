// Outcome messages (Req 01) as values: what is written of them, what any bytes are read as, and that the two agree. No code.
#![tactic(auto)]
