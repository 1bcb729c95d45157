// Acceptance is the grammar's: the machine of `order` runs through exactly the records that `grammar` has, check accepts exactly the files of
// them, and the index is the one read off the tree. Claims (specs/) and their proofs, no code.
#![tactic(auto)]
