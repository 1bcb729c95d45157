// The order of records stated a second time: document 01's "Order of records" as a grammar of notebooks, with no state machine in it, the index
// read off its tree, and worked examples of both. Definitions only. A rule of order stands in specs/Grammar.antt here and in specs/Rules.antt
// of `rules`; where one of the two changes alone, the examples here or there are refused, and `verdict` is.
#![tactic(auto)]
