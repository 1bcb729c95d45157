// notejoin [FILE ..]: joins the pieces on standard input, or in the files named, one after another in that order, and writes the joined
// file to standard output. A refusal goes to standard error, as `no` and its number and line, and nothing to standard output. One byte more
// than the limit is read, which is enough to refuse longer pieces. Where reading or writing fails, a line `error` with the word that says
// which goes to standard error, and `error read K` of the Kth file named.
#![tactic(auto)]

ghost use Rattle.inputs.specs.AtFront.{AtFront};

// Joins pieces, and writes the joined file or the refusal.
fn join(rt: &HostRuntime, pieces: &[u8]) {
    let mut file = [0u8; 65536];
    let reply = gateway::notebook_join(pieces, &mut file);
    answers::write_file(&mut rt.stdout(), &mut rt.stderr(), reply, &file);
}

// Reads the files named until the buffer is full; or the number of the one that cannot be read.
fn read_files(rt: &HostRuntime, words: usize, pieces: &mut [u8]) -> Result<usize, usize>
    ensures { AtFront result pieces.new }
{
    let mut end = 0;
    for word in 1..words {
        if end == pieces.len() {
            break;
        }
        end = inputs::read_word(rt, word, pieces, end).map_err(|_| word)?;
    }
    Ok(end)
}

fn join_files(rt: &HostRuntime, words: usize) {
    let mut pieces = [0u8; 131073];
    match read_files(rt, words, &mut pieces) {
        Ok(n) => join(rt, &pieces[..n]),
        Err(number) => answers::write_error_at(&mut rt.stderr(), b"read", number as u64),
    }
}

fn join_input(rt: &HostRuntime) {
    let mut pieces = [0u8; 131073];
    let Ok(n) = inputs::read_all(&mut rt.stdin(), &mut pieces) else {
        return answers::write_error(&mut rt.stderr(), b"read");
    };
    join(rt, &pieces[..n]);
}

// The program's own name is among the words.
fn main(rt: HostRuntime) {
    let words = inputs::word_count(&rt);
    if words < 2 {
        join_input(&rt);
    } else {
        join_files(&rt, words);
    }
}
