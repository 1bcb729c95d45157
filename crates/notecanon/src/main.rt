// Reads a file from standard input and writes its canonical file to standard output. A refusal goes to standard error, as `no` and its
// number and line, and nothing to standard output. One byte more than the limit is read, which is enough to refuse a longer input. Where
// reading or writing fails, a line `error` with the word that says which goes to standard error.
#![tactic(auto)]

fn main(rt: HostRuntime) {
    let mut file = [0u8; 65537];
    let Ok(n) = inputs::read_all(&mut rt.stdin(), &mut file) else {
        return answers::write_error(&mut rt.stderr(), b"read");
    };
    let mut canonical = [0u8; 65536];
    let reply = gateway::notebook_canonical(&file[..n], &mut canonical);
    answers::write_file(&mut rt.stdout(), &mut rt.stderr(), reply, &canonical);
}
