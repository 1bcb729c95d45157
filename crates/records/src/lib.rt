// Records as values: the table of records, what an item of each kind may be and is read to, a line read to a record, a record
// written. This crate has definitions (specs/) and laws (proofs/); the code that computes them stands in `items` and `lines`.
// A new kind moves Kind in specs/Table.antt, `fault` and `value_of` in specs/Items.antt, the printer in specs/Paper.antt, its law in
// proofs/KindLaws.antt, and its number and arm in `items`; what document 01 says of it goes into specs/Cases.antt.
#![tactic(auto)]
