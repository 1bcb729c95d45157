// Characters and lines: a Shift_JIS character with its script, by row and cell (cells.rt, chars.rt), characters one after another (runs.rt), and the
// line that begins at a position (lines.rt), in one pass over its bytes.
// Definitions: characters, specs/Cells.antt, Text.antt, Rows.antt. `char_of` reads one character, and `run_at` is the only loop that calls it:
// lines, items, widths, scripts and edges take its answer. What one loop calls is compiled into it, however long it is, which is why the decision over
// rows is cut as it is, and why there is one loop over characters; the last byte alone is read apart (`last_run`). A new kind of answer about
// characters moves characters::Char and cell_script there, and `char_of` and `run_at` here.
#![tactic(auto)]

mod cells;
mod chars;
mod lines;
mod runs;

pub use lines::{Broken, Scan, line_at, scan_text};
pub use runs::{Run, Scripts, all_chars, is_blank_pair, run_at, run_end, scripts_of};
