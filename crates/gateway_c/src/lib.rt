// The library for C and Rust hosts, libgateway.a: a crate is either a library, on which the programs here stand, or a static library, whose
// symbols C links. So each export of this one calls the function of that name in gateway, and says its clauses word for word.
#![tactic(auto)]

ghost use Rattle.std.specs.Prelude.{◌≡◌, []};
ghost use Rattle.replies.specs.Results.{reply_to, output_of};
ghost use Rattle.notebook.specs.Check.{check_result};
ghost use Rattle.notebook.specs.Index.{index_result};
ghost use Rattle.notebook.specs.Canonical.{canonical_result};
ghost use Rattle.division.specs.Cut.{cut_result};
ghost use Rattle.division.specs.Join.{join_result};
ghost use Rattle.gateway.specs.Version.{library_version};

// Checks a file: a records, b groups, c drugs; or the one refusal with its line.
#[unsafe(no_mangle)]
pub extern "C" fn notebook_check(file: &[u8]) -> replies::Reply
    ensures { result ≡ reply_to (check_result file.now) [] }
{
    gateway::notebook_check(file)
}

// Writes seven numbers for each record from the front of the buffer on and keeps what lies after them: a records; or the one refusal
// with its line, and the whole buffer as it was.
#[unsafe(no_mangle)]
pub extern "C" fn notebook_index(file: &[u8], out: &mut [u32]) -> replies::Reply
    ensures reply { result ≡ reply_to (index_result file.now) out.old }
    ensures buffer { out.new ≡ output_of (index_result file.now) out.old }
{
    gateway::notebook_index(file, out)
}

// Writes the canonical file from the front of the buffer on and keeps what lies after it: a bytes; or the one refusal with its line, and
// the whole buffer as it was.
#[unsafe(no_mangle)]
pub extern "C" fn notebook_canonical(file: &[u8], out: &mut [u8]) -> replies::Reply
    ensures reply { result ≡ reply_to (canonical_result file.now) out.old }
    ensures buffer { out.new ≡ output_of (canonical_result file.now) out.old }
{
    gateway::notebook_canonical(file, out)
}

// Writes the pieces of the canonical file for a capacity, one after another from the front of the buffer on, and keeps what lies after
// them: a pieces, b bytes; or the one refusal with its line, and the whole buffer as it was. used: the IDs that have been used, 14 bytes each, one
// after another.
#[unsafe(no_mangle)]
pub extern "C" fn notebook_cut(
    file: &[u8],
    capacity: u64,
    id: &[u8],
    used: &[u8],
    out: &mut [u8],
) -> replies::Reply
    ensures reply { result ≡ reply_to (cut_result file.now capacity id.now used.now) out.old }
    ensures buffer { out.new ≡ output_of (cut_result file.now capacity id.now used.now) out.old }
{
    gateway::notebook_cut(file, capacity, id, used, out)
}

// Writes the file that pieces in any order join to, from the front of the buffer on, and keeps what lies after it: a bytes; or the one
// refusal with its line, and the whole buffer as it was.
#[unsafe(no_mangle)]
pub extern "C" fn notebook_join(pieces: &[u8], out: &mut [u8]) -> replies::Reply
    ensures reply { result ≡ reply_to (join_result pieces.now) out.old }
    ensures buffer { out.new ≡ output_of (join_result pieces.now) out.old }
{
    gateway::notebook_join(pieces, out)
}

// The version of this library: 10,000 times the major, 100 times the minor, and the patch.
#[unsafe(no_mangle)]
pub extern "C" fn notebook_version() -> u64
    ensures { result ≡ library_version }
{
    gateway::notebook_version()
}
