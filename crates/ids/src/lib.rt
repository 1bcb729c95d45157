// IDs that have been used: a run of them, and which IDs refusal 24 lets pass. Document 02 (vii). Definitions (specs/) and their laws (proofs/), no
// code; `used` has the code.
#![tactic(auto)]
