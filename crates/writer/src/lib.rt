// The writer: a report's octets to symbols, symbols to chips. The loops over octets and over
// symbols keep that what is written, and behind it what is still to be written, are what they set
// out to write, so each turn is one law about lists (`frame`, proofs/Turns.antt).
#![tactic(auto)]

ghost use Rattle.std.specs.Prelude.{◌≡◌, ◌+◌, ◌*◌, ◌%◌, ◌^◌, ◌≤◌, ◌<◌, length, get_or, drop};
ghost use Rattle.codes.specs.Radio.{radio_of, word};
ghost use Rattle.strips.specs.Strip.{strip_at};
ghost use Rattle.frame.specs.Outcome.{outcome};
ghost use Rattle.frame.specs.Frame.{octets, raw_of, sent, encode, chips_of, frame};
ghost use Rattle.frame.specs.Write.{answer_of, written};
ghost use Rattle.frame.specs.Putting.{last_sent, octet_chips};

use codes::{Mode, Refusal};
use frame::Written;
use std::marker::PhantomData;

// Writes the frame of a report for the mode's radio over the first chips of the buffer, and gives
// back how many: 1, 2 and 3 in that order. Each mode's loops are made by themselves, of constants:
// a closure can't be generic over a type, so each entry has its own `match`. Mode, report and chips
// are loose, as C has them, and answer and buffer in one equation, as docs/PROMISES.md has it.
pub fn try_write(mode: u32, report: &[u8], chips: &mut [u8]) -> Result<u32, Refusal>
    ensures { outcome (answer_of result) chips.new ≡ written mode report.now chips.old }
{
    match mode {
        0 => put_frame::<codes::Bpsk>(report, chips),
        1 => put_frame::<codes::Oqpsk>(report, chips),
        2 => put_frame::<codes::LowBand>(report, chips),
        _ => Err(Refusal::BadMode),
    }
}

// The same, with the answer that C has.
pub fn write(mode: u32, report: &[u8], chips: &mut [u8]) -> Written
    ensures { outcome result chips.new ≡ written mode report.now chips.old }
{
    Written::from(try_write(mode, report, chips))
}

// The same for one radio: 2 and 3 in that order.
fn put_frame<M: Mode>(report: &[u8], chips: &mut [u8]) -> Result<u32, Refusal>
    ensures { outcome (answer_of result) chips.new ≡ written M.NUMBER report.now chips.old }
{
    if 127 < report.len() {
        return Err(Refusal::TooLong);
    }
    let count = (6 + report.len()) * octet_chips::<M>();
    if chips.len() < count {
        return Err(Refusal::NoRoom);
    }
    Words::<M>::new().put_octets(report, &mut chips[..count]);
    // 15,960 at most, so the cast loses nothing; `TryFrom` would have an error that can't be
    Ok(count as u32)
}

// A strip with the words of one radio. Its mode is a constant, so that the back end makes the strip
// at compile time, and loops of constant lengths.
#[derive(Drop)]
struct Words<M: Mode> {
    radio: PhantomData<M>,
    strip: [u8; 128],
    ghost laid: { strip ≡ strip_at M.NUMBER },
}

impl<M: Mode> Words<M> {
    fn new() -> Words<M> {
        Words {
            radio: PhantomData,
            strip: strips::strip(M::NUMBER),
        }
    }

    // Every octet of the frame in turn. The chain runs through all of them. By ranges, since after
    // `chunks_exact_mut` a proof knows none of the chips.
    fn put_octets(&self, report: &[u8], out: &mut [u8])
        requires room { length out.old ≡ (6 + length report.now) * octet_chips (radio_of M.NUMBER) }
        ensures { out.new ≡ frame (radio_of M.NUMBER) report.now }
    {
        let size = octet_chips::<M>();
        let mut last = 0;
        for j in 0..6 + report.len() {
            let at = j * size;
            last = self.put_octet(last, octet_at(report, j), &mut out[at..at + size]);
        }
    }

    // The symbols of one octet, its lowest bits first, likewise by ranges; the last comes back.
    fn put_octet(&self, last: usize, octet: usize, out: &mut [u8]) -> usize
        requires last { last < 2 ^ (radio_of M.NUMBER).bits }
        requires room { length out.old ≡ octet_chips (radio_of M.NUMBER) }
        ensures value { result ≡ last_sent (radio_of M.NUMBER) last (raw_of (radio_of M.NUMBER) octet) }
        ensures out { out.new ≡ chips_of (radio_of M.NUMBER) (encode (radio_of M.NUMBER) last (raw_of (radio_of M.NUMBER) octet)) }
    {
        let phy = codes::phy_of(M::NUMBER);
        let mut v = last;
        let mut rest = octet;
        for i in 0..phy.per {
            v = self.sent_symbol(v, rest % phy.values);
            rest /= phy.values;
            let at = i * phy.size;
            self.put_symbol(v, &mut out[at..at + phy.size]);
        }
        v
    }

    // The symbol sent for a raw one after the symbol `last`: a test of a yes or no, as in `sent`.
    fn sent_symbol(&self, last: usize, raw: usize) -> usize
        requires { (last < 2 ^ (radio_of M.NUMBER).bits) × (raw < 2 ^ (radio_of M.NUMBER).bits) }
        ensures { result ≡ sent (radio_of M.NUMBER) last raw }
    {
        if codes::phy_of(M::NUMBER).chained {
            (last + raw) % 2
        } else {
            raw
        }
    }

    // A symbol's word.
    fn put_symbol(&self, v: usize, out: &mut [u8])
        requires word { v < length (radio_of M.NUMBER).words }
        requires room { length out.old ≡ (radio_of M.NUMBER).size }
        ensures { out.new ≡ word (radio_of M.NUMBER) v }
    {
        let mode = M::NUMBER;
        let row = strips::row_of(mode, v);
        let size = codes::phy_of(mode).size;
        copy_word(&self.strip[row..row + size], out);
    }
}

// Copies a word. All its chips are read before the first is stored, so that the back end, which may
// not know that strip and buffer are apart, moves many at a time: stored as it is read, a frame
// takes 1.7, 1.4 and 1.5 times as long in modes 0, 1 and 2, and misses the aims of 0 and 2.
fn copy_word(run: &[u8], out: &mut [u8])
    requires few { length run.now ≤ 32 }
    requires room { length out.old ≡ length run.now }
    ensures { out.new ≡ run.now }
{
    let size = run.len();
    let mut word = [0u8; 32];
    word[..size].copy_from_slice(run);
    out.copy_from_slice(&word[..size]);
}

// Octet j of the frame; the report's octets, which are most of them, by the first test: as a
// `match` in the order of the frame it makes writing 1.4 times as long in modes 1 and 2, and misses
// the aim of mode 2. Plain numbers, as in `octets`.
fn octet_at(report: &[u8], j: usize) -> usize
    requires { j < 6 + length report.now }
    ensures { result ≡ get_or (octets report.now) j 0 }
{
    if 5 < j {
        return usize::from(report[j - 6]);
    }
    if j == 5 {
        return report.len();
    }
    if j == 4 {
        return usize::from(frame::START);
    }
    0
}

// Chips of an octet of the radio.
fn octet_chips<M: Mode>() -> usize
    ensures { result ≡ octet_chips (radio_of M.NUMBER) }
{
    let phy = codes::phy_of(M::NUMBER);
    phy.per * phy.size
}
