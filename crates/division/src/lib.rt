// Cutting and joining: what a piece is, the two calls, and demand 3 as theorems about them. Definitions (specs/) and laws (proofs/), no code, so
// that a wrong definition is refused by demand 3 itself. The code is in `pieces`, `cut` and `join`.
#![tactic(auto)]
