// The rules of the order of records (JAHIS 15-106 3.2.7 and 3.2.8; document 01, "Order of records"): which record may follow which, what is
// refused with 12 to 16, and what the end lacks; with worked examples. Definitions only, over answers to questions: no value is compared here.
// `order` has the state that gives the answers, and the code.
#![tactic(auto)]
