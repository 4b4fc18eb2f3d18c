// The tests of copies from before a change of document 02: definitions (specs/) and what is promised of such copies (proofs/). No code.
#![tactic(auto)]
