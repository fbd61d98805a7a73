// A report to a raw capture: reads a report from standard input and writes its frame, a byte a
// chip, to standard output. The mode is the last argument; -c before it asks for the checked
// profile. On a refusal it writes nothing there, and the number and its meaning, one line, to
// standard error.
#![tactic(auto)]

ghost use Rattle.std.specs.Prelude.{◌≡◌, ◌≤◌, length, IfOk, MatchOption};
ghost use Rattle.frame.specs.Outcome.{outcome};
ghost use Rattle.frame.specs.Write.{answer_of};
ghost use Rattle.send.specs.Mode.{none, mode_of};
ghost use Rattle.send.specs.Option.{is_option, is_checked, written_as};

use codes::{Phy, Refusal};
use std::env::{Env, FillError};
use std::io::Read;
use std::{fmt, io};

// Which frame a report gets: the plain one, or the checked one with an FCS behind the report.
#[derive(Clone, Copy)]
enum Profile {
    Plain,
    Checked,
}

impl Profile {
    // The most octets of a report.
    fn most(self) -> u8 {
        match self {
            Profile::Plain => 127,
            Profile::Checked => 125,
        }
    }

    // Which argument the mode is, the last one: the checked profile has the option before it.
    fn mode_argument(self) -> usize
        ensures { result ≤ 2 }
    {
        match self {
            Profile::Plain => 1,
            Profile::Checked => 2,
        }
    }

    // Writes the frame, and gives back how many chips it has.
    #[tactic(auto, unfolding(crate::specs::Option::written_as))]
    fn write(self, mode: u32, report: &[u8], chips: &mut [u8]) -> Result<u32, Refusal>
        ensures written { outcome (answer_of result) chips.new ≡ written_as (is_checked self) mode report.now chips.old }
        ensures fits { IfOk result (λ count. count ≤ length chips.new) }
    {
        match self {
            Profile::Plain => writer::try_write(mode, report, chips),
            Profile::Checked => checked::try_write(mode, report, chips),
        }
    }
}

// Why no frame is written. `bench` has a `Failure` of other kinds. What the two programs share, its
// shape and the few lines of `main`, is too little for a crate of a public trait and a function.
#[derive(Drop)]
enum Failure {
    // with the most octets that the profile lets through
    Refused(Refusal, u8),
    Input(io::Error),
    Output(io::Error),
}

impl fmt::Display for Failure {
    fn fmt<W: fmt::Write>(&self, f: &mut fmt::Formatter<W>) -> fmt::Result {
        match self {
            Failure::Refused(why, most) => write_refusal(f, *why, *most),
            Failure::Input(error) => write!(f, "standard input: {error}"),
            Failure::Output(error) => write!(f, "standard output: {error}"),
        }
    }
}

// A writer's refusal: its number, and the words of the numbers given back.
fn write_refusal<W: fmt::Write>(f: &mut fmt::Formatter<W>, why: Refusal, most: u8) -> fmt::Result {
    let number = u32::from(why);
    match why {
        Refusal::BadMode => write!(f, "{number} mode above 2"),
        Refusal::TooLong => write!(f, "{number} report longer than {most}"),
        Refusal::NoRoom => write!(f, "{number} lent buffer too short"),
        Refusal::TooFew => write!(f, "{number} too few octets"),
        Refusal::AllZero => write!(f, "{number} every octet 0"),
        _ => write!(f, "{number}"),
    }
}

// A failure is told on standard error; where that fails too, nobody is left to tell.
fn main(rt: HostRuntime) {
    if let Err(failure) = send(&rt) {
        let _ = eprintln!(rt; "{failure}");
    }
}

fn send(rt: &HostRuntime) -> Result<(), Failure> {
    let profile = asked_profile(rt);
    let refused = |why| Failure::Refused(why, profile.most());
    // Told before anything is read, so that nobody types a report in vain.
    let mode = asked_mode(rt, profile).ok_or(refused(Refusal::BadMode))?;
    // One octet more than a report may have, so that a longer one is refused and not cut.
    let mut report = [0u8; 128];
    let octets = read_all(&mut rt.stdin(), &mut report).map_err(Failure::Input)?;
    let mut chips = buffer();
    let count = profile.write(mode, octets, &mut chips).map_err(refused)?;
    // A count and not the slice: `written_as` speaks of the whole buffer, as C's answer does.
    rt.write_all(&chips[..count as usize])
        .map_err(Failure::Output)
}

// Room for the longest frame. A function for its promise: an array made in `send`, one byte too
// short, no proof would refuse. Each program's own number: a public constant would be a line more
// in a library, and none less here.
fn buffer() -> [u8; 15960]
    ensures { 15960 ≡ length result }
{
    [0; 15960]
}

// Reads until the buffer is full or the input ends, and gives back what came. A read that fails is
// an error, whatever came before it: a report cut short by it must not be sent. Not std's
// `io::copy`, which tries an interrupted read again and promises no count; and `bench` has the
// same, since a library's public functions settle what they give back (tests/contracts-test). Input
// and buffer go apart, as std's `read` has them.
fn read_all<'a, R: Read>(input: &mut R, buffer: &'a mut [u8]) -> io::Result<&'a [u8]>
    ensures { IfOk result (λ came. length came.now ≤ length buffer.old) }
{
    let mut count: usize = 0;
    while count < buffer.len() {
        let more = input.read(&mut buffer[count..])?;
        if more == 0 {
            break;
        }
        count += more;
    }
    Ok(&buffer[..count])
}

// The profile that the first argument asks for.
fn asked_profile(rt: &impl Env) -> Profile {
    let mut text = [0u8; 64];
    match argument(rt, 1, &mut text) {
        Some(text) if is_option(text) => Profile::Checked,
        _ => Profile::Plain,
    }
}

// An argument; none where there is none, or one longer than the buffer.
fn argument<'a>(rt: &impl Env, index: usize, text: &'a mut [u8; 64]) -> Option<&'a [u8]> {
    let length = rt.arg(index, text).ok()?;
    Some(&text[..length])
}

// -c, and nothing that only begins so.
fn is_option(text: &[u8]) -> bool
    ensures { result ≡ is_option text.now }
{
    text == b"-c".as_slice()
}

// The mode that the last argument names; none where no radio has it, or with an argument too few or
// too many.
fn asked_mode(rt: &impl Env, profile: Profile) -> Option<u32> {
    let last = profile.mode_argument();
    let mut text = [0u8; 64];
    if !matches!(rt.arg(last + 1, &mut text), Err(FillError::NotPresent)) {
        return None;
    }
    let mode = mode_of(argument(rt, last, &mut text)?)?;
    Phy::try_from(mode).ok()?;
    Some(mode)
}

// A number in decimal; none where the text is no number, or one above 32 bits.
fn mode_of(text: &[u8]) -> Option<u32>
    ensures { MatchOption result (mode_of text.now ≡ none) (λ mode. mode ≡ mode_of text.now) }
{
    if text.is_empty() {
        return None;
    }
    let mut mode = 0u32;
    for digit in text {
        if !digit.is_ascii_digit() {
            return None;
        }
        mode = mode.checked_mul(10)?.checked_add(u32::from(digit - b'0'))?;
    }
    Some(mode)
}
