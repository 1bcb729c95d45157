// What a notebook file is, and what check, index and canonical answer: definitions (specs/) and laws (proofs/), no code. A file is read to a
// notebook by `read_file` (specs/Notebook.antt); the other calls are functions of that. The code is in `checking`, `index` and `canonical`.
#![tactic(auto)]
