// What can follow the lines before a refused one. Claims (specs/) and their proofs, no code.
#![tactic(auto)]
