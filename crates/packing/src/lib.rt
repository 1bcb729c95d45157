// Packing into pieces of a capacity, as a theory of lists and lengths: definitions (specs/) and laws (proofs/). The code that follows them
// stands in `cut`.
#![tactic(auto)]
