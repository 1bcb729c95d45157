// Every call answers every input with a result or one refusal of document 01 with its line, and a refusal leaves the lent buffer as it was: demand 1
// as theorems over the definitions that the contracts of the exported calls cite. Claims (specs/) and their proofs, no code.
#![tactic(auto)]
