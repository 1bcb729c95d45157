// Characters of a file, its text and its rows (document 01, "Lines and characters"): definitions (specs/) and laws (proofs/), no code. The code
// is in `scanning`.
#![tactic(auto)]

// What the reading of one character answers: one of one byte, one of two bytes by its script, or none. `Either` are the two that both kana scripts
// share. `Bad` is one of the answers, and no `None`: a question about a text is its answers for all six. A new kind of answer about characters goes here.
#[derive(Clone, Copy, Debug, PartialEq, Eq)]
pub enum Char {
    One,
    Hiragana,
    Katakana,
    Either,
    Other,
    Bad,
}
