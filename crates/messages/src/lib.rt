// What the calls of outcome messages (document 02, Req 01) promise, said of every call at once. No code.
#![tactic(auto)]
