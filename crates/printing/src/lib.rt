// The line that programs print of a reply (document 01, Cases), as bytes: definitions (specs/), examples and laws (proofs/). The code that writes
// these bytes stands in `answers`.
#![tactic(auto)]
