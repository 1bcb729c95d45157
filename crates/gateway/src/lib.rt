// The calls, for the programs here and, by gateway_c, for C and Rust. Every call takes any input, asks nothing of it, and returns one struct by value, so that a
// refusal touches no lent memory. What a call replies and leaves in its output: replies, specs/Results.antt.
#![tactic(auto)]

ghost use Rattle.std.specs.Prelude.{◌≡◌, []};
ghost use Rattle.replies.specs.Results.{reply_to, output_of};
ghost use Rattle.notebook.specs.Check.{check_result};
ghost use Rattle.notebook.specs.Index.{index_result};
ghost use Rattle.notebook.specs.Canonical.{canonical_result};
ghost use Rattle.division.specs.Cut.{cut_result};
ghost use Rattle.division.specs.Join.{join_result};
ghost use Rattle.gateway.specs.Version.{library_version};

// Checks a file: a records, b groups, c drugs; or the one refusal with its line.
#[unsafe(no_mangle)]
pub extern "C" fn notebook_check(file: &[u8]) -> replies::Reply
    ensures { result ≡ reply_to (check_result file.now) [] }
{
    replies::Reply::from(checking::check(file))
}

// Writes seven numbers for each record from the front of the buffer on and keeps what lies after them: a records; or the one refusal
// with its line, and the whole buffer as it was.
#[unsafe(no_mangle)]
pub extern "C" fn notebook_index(file: &[u8], out: &mut [u32]) -> replies::Reply
    ensures reply { result ≡ reply_to (index_result file.now) out.old }
    ensures buffer { out.new ≡ output_of (index_result file.now) out.old }
{
    replies::Reply::from(index::index(file, out))
}

// Writes the canonical file from the front of the buffer on and keeps what lies after it: a bytes; or the one refusal with its line, and
// the whole buffer as it was.
#[unsafe(no_mangle)]
pub extern "C" fn notebook_canonical(file: &[u8], out: &mut [u8]) -> replies::Reply
    ensures reply { result ≡ reply_to (canonical_result file.now) out.old }
    ensures buffer { out.new ≡ output_of (canonical_result file.now) out.old }
{
    replies::Reply::from(canonical::canonical_file(file, out))
}

// Writes the pieces of the canonical file for a capacity, one after another from the front of the buffer on, and keeps what lies after
// them: a pieces, b bytes; or the one refusal with its line, and the whole buffer as it was. used: the IDs that have been used, 14 bytes each, one
// after another.
#[unsafe(no_mangle)]
pub extern "C" fn notebook_cut(
    file: &[u8],
    capacity: u64,
    id: &[u8],
    used: &[u8],
    out: &mut [u8],
) -> replies::Reply
    ensures reply { result ≡ reply_to (cut_result file.now capacity id.now used.now) out.old }
    ensures buffer { out.new ≡ output_of (cut_result file.now capacity id.now used.now) out.old }
{
    replies::Reply::from(cut::cut(file, capacity, id, used, out))
}

// Writes the file that pieces in any order join to, from the front of the buffer on, and keeps what lies after it: a bytes; or the one
// refusal with its line, and the whole buffer as it was.
#[unsafe(no_mangle)]
pub extern "C" fn notebook_join(pieces: &[u8], out: &mut [u8]) -> replies::Reply
    ensures reply { result ≡ reply_to (join_result pieces.now) out.old }
    ensures buffer { out.new ≡ output_of (join_result pieces.now) out.old }
{
    replies::Reply::from(join::join(pieces, out))
}

// The file VERSION as one number (tests/version.py).
const VERSION: u64 = 601;

// The version of this library: 10,000 times the major, 100 times the minor, and the patch.
#[unsafe(no_mangle)]
pub extern "C" fn notebook_version() -> u64
    ensures { result ≡ library_version }
{
    VERSION
}
