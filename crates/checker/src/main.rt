// The sheet program: reads a sheet of up to 32,768 bytes from standard input, later bytes unread, and writes the answers.
#![tactic(auto)]

// The bytes of sheet and answers, and the words of each area, at most.
const ROOM: usize = 32768;

const WORDS: usize = 16384;

fn main() {
    let mut sheet = [0; ROOM];
    let mut out = [0; ROOM];
    let mut a = [0; WORDS];
    let mut b = [0; WORDS];
    let mut c = [0; WORDS];
    let mut d = [0; WORDS];
    let size = io::read_full(0, &mut sheet);
    let ran = sheet::run_sheet(&sheet[..size], &mut out, &mut a, &mut b, &mut c, &mut d);
    io::write_all(1, &out[..ran.bytes]);
}
