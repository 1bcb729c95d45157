// Reads a file from standard input and writes `ok` and the counts of records, groups and drugs, or `no` and the refusal's number and
// line. One byte more than the limit is read, which is enough to refuse a longer input. Where reading or writing fails, a line `error` with
// the word that says which goes to standard error.
#![tactic(auto)]

fn main(rt: HostRuntime) {
    let mut buffer = [0u8; 65537];
    let Ok(n) = inputs::read_all(&mut rt.stdin(), &mut buffer) else {
        return answers::write_error(&mut rt.stderr(), b"read");
    };
    let reply = gateway::notebook_check(&buffer[..n]);
    answers::write_reply(&mut rt.stdout(), &mut rt.stderr(), 3, reply);
}
