// What refusals tell: the first faulty line, the lowest number in it, items from the left. Claims (specs/) and their proofs, no code.
#![tactic(auto)]
