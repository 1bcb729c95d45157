// The test program of the five calls: frames from standard input, each answered on standard output. What the answers must be is in
// `stdout`, which tests/make_cases.py wrote from document 01, without this code.
//
// A frame, numbers big-endian: one byte, the call (v check, i index, c canonical, k cut, j join, p all pairs of bytes); one byte, the
// length of the label; the label; four bytes, the elements of the buffer that is lent; eight bytes, the capacity; one byte, the length of
// the ID; the ID; four bytes, the length of the run of used IDs; the run; four bytes, the length of the input; the input. What a call does not take is not
// given to it.
//
// An answer starts with the label, a colon and a space.
// - Check: its reply as notecheck writes it.
// - Index, canonical, cut and join: the reply (`ok` and its values, or `no`, number and line), a semicolon, and the whole buffer as the call
//   leaves it: bytes in hexadecimal, numbers in decimal, or, where it has more than 200 elements, their count and the Adler-32 sum of its
//   bytes (of a number, four bytes, big-endian). The buffer is filled with a pattern before the call, so that an element that the call
//   should have left alone shows.
// - All pairs of bytes: `256 lines`, then a line for each first byte with a sign for each second one. The pair stands inside an item of
//   line 3; the sign is `.` where check accepts the file, the refusal's digit where it refuses line 3, and `?` where it refuses another.
#![tactic(auto)]

use replies::Reply;

// Room for every input, every run of used IDs and every result.
const ROOM: usize = 140000;

// --- reading and writing ---

// The next bytes of the input; after its end every byte is 255.
fn read_array<const N: usize>(rt: &HostRuntime) -> [u8; N] {
    let mut bytes = [255u8; N];
    let _ = inputs::read_all(&mut rt.stdin(), &mut bytes);
    bytes
}

fn read_byte(rt: &HostRuntime) -> u8 {
    u8::from_be_bytes(read_array(rt))
}

fn read_four(rt: &HostRuntime) -> u32 {
    u32::from_be_bytes(read_array(rt))
}

fn read_eight(rt: &HostRuntime) -> u64 {
    u64::from_be_bytes(read_array(rt))
}

// Reads so many bytes to the front of the buffer, none where it has no room for them; those that it read.
fn read_run<'a>(rt: &HostRuntime, buffer: &'a mut [u8], count: u32) -> &'a [u8] {
    let Some(run) = buffer.get_mut(..count as usize) else {
        return &[];
    };
    let n = inputs::read_all(&mut rt.stdin(), run).unwrap_or(0);
    &run[..n]
}

fn write(rt: &HostRuntime, bytes: &[u8]) {
    let _ = answers::write_whole(&mut rt.stdout(), bytes);
}

// --- the elements of a buffer that is lent ---

trait Element: Copy {
    // What stands at an index before the call.
    fn pattern(index: usize) -> Self;

    // Writes the element, with a space before the first or before each.
    fn write(self, rt: &HostRuntime, first: bool);

    // The sum with the element's bytes.
    fn add_to(self, sum: u32) -> u32;
}

impl Element for u8 {
    fn pattern(index: usize) -> u8 {
        ((index % 251 * 7 + 3) % 251) as u8
    }

    fn write(self, rt: &HostRuntime, first: bool) {
        if first {
            write(rt, b" ");
        }
        let byte = self;
        let _ = print!(rt; "{byte:02x}");
    }

    fn add_to(self, sum: u32) -> u32 {
        adler(sum, self)
    }
}

impl Element for u32 {
    fn pattern(index: usize) -> u32 {
        ((index % 1000003 * 7919 + 13) % 1000003) as u32
    }

    fn write(self, rt: &HostRuntime, _first: bool) {
        answers::write_number(&mut rt.stdout(), u64::from(self));
    }

    fn add_to(self, sum: u32) -> u32 {
        self.to_be_bytes()
            .iter()
            .fold(sum, |sum, byte| adler(sum, *byte))
    }
}

// The Adler-32 sum (RFC 1950) with one more byte.
fn adler(sum: u32, byte: u8) -> u32 {
    let a = (sum % 65536 + u32::from(byte)) % 65521;
    let b = (sum / 65536 + a) % 65521;
    b * 65536 + a
}

// The elements, or where there are more than 200 their count and their sum.
fn write_buffer<T: Element>(rt: &HostRuntime, buffer: &[T]) {
    if buffer.len() <= 200 {
        for (i, element) in buffer.iter().enumerate() {
            element.write(rt, i == 0);
        }
    } else {
        let sum = buffer.iter().fold(1, |sum, element| element.add_to(sum));
        answers::write_number(&mut rt.stdout(), buffer.len() as u64);
        let _ = print!(rt; " {sum:08x}");
    }
    write(rt, b"\n");
}

// --- the reply ---

// The fields that a reply of index, canonical, cut or join does not use.
fn unused(values: usize, reply: Reply) -> u64 {
    if reply.refusal != 0 {
        return reply.a | reply.b | reply.c;
    }
    if values == 2 {
        return reply.line | reply.c;
    }
    reply.line | reply.b | reply.c
}

// The line of a reply without its 0Ah, and a semicolon. Fields that the reply does not use are 0; where one is not, an exclamation mark shows it.
fn write_reply(rt: &HostRuntime, values: usize, reply: Reply) {
    let mut text = [0u8; 66];
    let end = answers::print(values, reply, &mut text).saturating_sub(1);
    write(rt, &text[..end]);
    if unused(values, reply) != 0 {
        write(rt, b"!");
    }
    write(rt, b";");
}

// --- all pairs of bytes ---

// 48 is the digit 0; the signs of 10 and more follow those of the digits.
fn sign(reply: Reply) -> u8 {
    if reply.refusal == 0 {
        return b'.';
    }
    if reply.line != 3 {
        return b'?';
    }
    (48 + reply.refusal % 200) as u8
}

fn write_pairs(rt: &HostRuntime) {
    write(rt, b"256 lines\n");
    let mut file = *b"JAHISTC04,2\r\n1,A,1,19890108,,,,,,,\r\n4,x__x,,2\r\n";
    for first in 0..=u8::MAX {
        for second in 0..=u8::MAX {
            file[39] = first;
            file[40] = second;
            write(rt, &[sign(gateway::notebook_check(&file))]);
        }
        write(rt, b"\n");
    }
}

// --- frames ---

#[derive(Clone, Copy)]
enum Call {
    Check,
    Index,
    Canonical,
    Cut,
    Join,
    Pairs,
}

impl Call {
    // None at the end of the input; a letter that names no call is taken for join's.
    fn from_letter(letter: u8) -> Option<Call> {
        match letter {
            b'v' => Some(Call::Check),
            b'i' => Some(Call::Index),
            b'c' => Some(Call::Canonical),
            b'k' => Some(Call::Cut),
            b'p' => Some(Call::Pairs),
            255 => None,
            _ => Some(Call::Join),
        }
    }
}

// What a frame asks for.
#[derive(Clone, Copy)]
struct Frame<'a> {
    call: Call,
    room: usize,
    capacity: u64,
    id: &'a [u8],
    used: &'a [u8],
    input: &'a [u8],
}

// Lends a call the front of a buffer, and writes its reply and what it leaves; nothing where the buffer has no such room.
fn lend<T: Element, F: FnOnce(&mut [T]) -> Reply>(
    rt: &HostRuntime,
    buffer: &mut [T],
    room: usize,
    values: usize,
    call: F,
)
    requires { F.IsAlwaysCallable call }
{
    let Some(out) = buffer.get_mut(..room) else {
        return;
    };
    for (i, element) in out.iter_mut().enumerate() {
        *element = T::pattern(i);
    }
    let reply = call(out);
    write_reply(rt, values, reply);
    write_buffer(rt, out);
}

// Room for the index of a file with the most records, 8,192.
fn lend_numbers(rt: &HostRuntime, frame: Frame) {
    let mut numbers = [0u32; 57344];
    lend(
        rt,
        &mut numbers,
        frame.room,
        1,
        |out| gateway::notebook_index(frame.input, out),
    );
}

fn lend_bytes<F: FnOnce(&mut [u8]) -> Reply>(rt: &HostRuntime, frame: Frame, values: usize, call: F)
    requires { F.IsAlwaysCallable call }
{
    let mut bytes = [0u8; ROOM];
    lend(rt, &mut bytes, frame.room, values, call);
}

fn answer(rt: &HostRuntime, frame: Frame) {
    let input = frame.input;
    match frame.call {
        Call::Check => answers::write_reply(
            &mut rt.stdout(),
            &mut rt.stderr(),
            3,
            gateway::notebook_check(input),
        ),
        Call::Index => lend_numbers(rt, frame),
        Call::Canonical => lend_bytes(rt, frame, 1, |out| gateway::notebook_canonical(input, out)),
        Call::Cut => lend_bytes(rt, frame, 2, |out| {
            gateway::notebook_cut(input, frame.capacity, frame.id, frame.used, out)
        }),
        Call::Join => lend_bytes(rt, frame, 1, |out| gateway::notebook_join(input, out)),
        Call::Pairs => write_pairs(rt),
    }
}

// One frame: whether there was one.
fn answer_next(rt: &HostRuntime) -> bool {
    let Some(call) = Call::from_letter(read_byte(rt)) else {
        return false;
    };
    let mut short = [0u8; 255];
    let label = read_run(rt, &mut short, u32::from(read_byte(rt)));
    write(rt, label);
    write(rt, b": ");
    let mut ids = [0u8; ROOM];
    let mut file = [0u8; ROOM];
    let room = read_four(rt) as usize;
    let capacity = read_eight(rt);
    let id = read_run(rt, &mut short, u32::from(read_byte(rt)));
    let used = read_run(rt, &mut ids, read_four(rt));
    let input = read_run(rt, &mut file, read_four(rt));
    answer(
        rt,
        Frame {
            call,
            room,
            capacity,
            id,
            used,
            input,
        },
    );
    true
}

fn main(rt: HostRuntime) {
    for _ in 0..100000 {
        if !answer_next(&rt) {
            return;
        }
    }
}
