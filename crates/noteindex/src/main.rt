// Reads a file from standard input and writes its index as a table: a line for each record, its seven numbers with single spaces; or `no`
// and the refusal's number and line. One byte more than the limit is read, which is enough to refuse a longer input. A record's line
// has at least 8 bytes (as 601,x, and its end), so there are at most 8,192 records. Where reading or writing fails, a line `error` with the
// word that says which goes to standard error.
#![tactic(auto)]

ghost use Rattle.std.specs.Prelude.{◌≤◌, length};

// The numbers of a record.
const NUMBERS: usize = 7;

// The lines of at most 64 records at the text's front; a line has at most 147 bytes.
fn put_lines(text: &mut [u8; 9408], records: &[[u32; NUMBERS]]) -> usize
    requires { length records.now ≤ 64 }
    ensures { result ≤ 9408 }
{
    let mut end = 0;
    for record in records {
        end = answers::put_entry(text, end, &record.map(u64::from));
    }
    end
}

// The lines of 64 records by one write.
fn write_records(rt: &HostRuntime, records: &[[u32; NUMBERS]]) {
    for part in records.chunks(64) {
        let mut text = [0u8; 9408];
        let end = put_lines(&mut text, part);
        if answers::write_output(&mut rt.stdout(), &mut rt.stderr(), &text[..end]).is_err() {
            return;
        }
    }
}

fn main(rt: HostRuntime) {
    let mut file = [0u8; 65537];
    let Ok(n) = inputs::read_all(&mut rt.stdin(), &mut file) else {
        return answers::write_error(&mut rt.stderr(), b"read");
    };
    let mut entries = [0u32; 57344];
    let reply = gateway::notebook_index(&file[..n], &mut entries);
    if reply.refusal != 0 {
        return answers::write_reply(&mut rt.stdout(), &mut rt.stderr(), 1, reply);
    }
    let (records, _) = entries.as_chunks::<NUMBERS>();
    if let Some(records) = records.get(..reply.a as usize) {
        write_records(&rt, records);
    }
}
