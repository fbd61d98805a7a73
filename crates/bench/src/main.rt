// The bench program: reads a raw capture from standard input, at most its first 15,960 bytes, tries
// modes 0, 1 and 2 in that order, each with a report buffer of 127 bytes, and prints a line for
// each: mode, number, place, n, count, gap. The text of all lines is made whole and written once:
// `lines` promises every byte of it (specs/Lines.antt), and `main` only reads and writes. The
// proofs go through because `itoa` promises a number's digits, of one of 32 bits at most ten, so
// that 198 bytes are room enough, and the reader its reading.
#![tactic(auto)]

ghost use Rattle.std.specs.Prelude.{◌≡◌, ◌++◌, ◌+◌, ◌<◌, ◌≤◌, length, IfOk};
ghost use Rattle.bench.specs.Lines.{most, entry, line_of, lines_of};

use arrayvec::ArrayString;
use itoa::Buffer;
use std::env::{Env, FillError};
use std::io::Read;
use std::{fmt, io};

// How many bytes of a capture are read. Each program's own number: a public constant would be a
// line more in a library, and none less here.
const MOST: usize = 15960;

// Room for three lines of six numbers, each of at most ten digits and a byte after them.
type Text = ArrayString<198>;

// Why no line is printed. `send` has a `Failure` of other kinds. What the two programs share, its
// shape and the few lines of `main`, is too little for a crate of a public trait and a function.
#[derive(Drop)]
enum Failure {
    Arguments,
    Grown,
    Input(io::Error),
    Output(io::Error),
}

impl fmt::Display for Failure {
    fn fmt<W: fmt::Write>(&self, f: &mut fmt::Formatter<W>) -> fmt::Result {
        match self {
            Failure::Arguments => {
                f.write_str("bench takes no arguments: standard input is the capture")
            }
            Failure::Grown => f.write_str("standard input: more came behind its end"),
            Failure::Input(error) => write!(f, "standard input: {error}"),
            Failure::Output(error) => write!(f, "standard output: {error}"),
        }
    }
}

// A failure is told on standard error; where that fails too, nobody is left to tell.
fn main(rt: HostRuntime) {
    if let Err(failure) = bench(&rt) {
        let _ = eprintln!(rt; "{failure}");
    }
}

fn bench(rt: &HostRuntime) -> Result<(), Failure> {
    // Who forgets the `<` before a file's name would otherwise be told of an empty capture.
    if has_arguments(rt) {
        return Err(Failure::Arguments);
    }
    let mut chips = room();
    let text = lines(capture(&mut rt.stdin(), &mut chips)?);
    rt.write_all(text.as_str().as_bytes())
        .map_err(Failure::Output)
}

// Whether there is an argument behind the program's name, of whatever length.
fn has_arguments(rt: &impl Env) -> bool {
    let mut first = [0u8; 1];
    !matches!(rt.arg(1, &mut first), Err(FillError::NotPresent))
}

// Room for as much of a capture as is read. A function for its promise, that there are `most` bytes
// of it: of an array made in `bench`, one byte too short, nothing would be refused.
fn room() -> [u8; MOST]
    ensures { most ≡ length result }
{
    [0; MOST]
}

// The bytes of a capture, up to as many as there is room for. Where more came behind its end it has
// grown meanwhile, and must not be answered.
fn capture<'a, R: Read>(input: &mut R, buffer: &'a mut [u8]) -> Result<&'a [u8], Failure>
    ensures { IfOk result (λ chips. length chips.now ≤ length buffer.old) }
{
    let room = buffer.len();
    let chips = read_all(input, buffer).map_err(Failure::Input)?;
    if chips.len() < room && !ended(input).map_err(Failure::Input)? {
        return Err(Failure::Grown);
    }
    Ok(chips)
}

// Reads until the buffer is full or the input ends, and gives back what came. A read that fails is
// an error, whatever came before it: a capture cut short by it must not be answered. Not std's
// `io::copy`, which tries an interrupted read again and promises no count; and `send` has the same,
// since a library's public functions settle what they give back (tests/contracts-test). Input and
// buffer go apart, as std's `read` has them.
fn read_all<'a, R: Read>(input: &mut R, buffer: &'a mut [u8]) -> io::Result<&'a [u8]>
    ensures { IfOk result (λ came. length came.now ≤ length buffer.old) }
{
    let mut count: usize = 0;
    while count < buffer.len() {
        let more = input.read(&mut buffer[count..])?;
        if more == 0 {
            break;
        }
        count += more;
    }
    Ok(&buffer[..count])
}

// Whether the input has ended: one read more finds nothing only where it has.
fn ended<R: Read>(input: &mut R) -> io::Result<bool> {
    let mut more = [0u8; 1];
    Ok(input.read(&mut more)? == 0)
}

// The lines of a capture, a mode each: three calls, as `lines_of` has three terms and the edits
// `modes_other_order` and `two_lines` have it; a `for` would need an invariant over modes besides.
fn lines(chips: &[u8]) -> Text
    ensures { result.bytes ≡ lines_of chips.now }
{
    let mut text = Text::new();
    line(0, chips, &mut text);
    line(1, chips, &mut text);
    line(2, chips, &mut text);
    text
}

// The line of one mode, behind the text before it.
fn line(mode: u32, chips: &[u8], text: &mut Text)
    requires { length text.old.bytes + 66 ≤ 198 }
    ensures upper_bound { length text.new.bytes ≤ length text.old.bytes + 66 }
    ensures text_after { text.new.bytes ≡ text.old.bytes ++ line_of mode chips.now }
{
    let mut report = [0u8; 127];
    let reading = reader::read(mode, chips, &mut report);
    // Not one `write!`, which promises the bytes of an `Ok` only: `lines` would promise less by it.
    put(text, mode, ' ');
    put(text, reading.number, ' ');
    put(text, reading.place, ' ');
    put(text, reading.n, ' ');
    put(text, reading.count, ' ');
    put(text, reading.gap, '\n');
}

// A number in decimal and the byte after it, behind the text before them.
fn put(text: &mut Text, n: u32, after: char)
    requires room { length text.old.bytes + 11 ≤ 198 }
    requires ascii { after < 128 }
    ensures upper_bound { length text.new.bytes ≤ length text.old.bytes + 11 }
    ensures text_after { text.new.bytes ≡ text.old.bytes ++ entry n after }
{
    let mut buffer = Buffer::new();
    text.push_str(buffer.format(n));
    text.push(after);
}
