// The reader: a chip buffer to the report or a numbered refusal, by the reading order. A loop over
// symbols around a loop over chips; between symbols it carries a few numbers, the hand (the room
// `order`), by the steps of one symbol (`steps`); what is still to be read stays the whole
// reading's answer (proofs/Sofar.antt, proofs/Scanning.antt, proofs/Cut.antt). A u32 becomes a
// usize by `as`, since there is no `From` for it; so it does in the rooms above.
#![tactic(auto)]

ghost use Rattle.std.specs.Prelude.{◌≡◌};
ghost use Rattle.codes.specs.Radio.{radio_of};
ghost use Rattle.frame.specs.Outcome.{outcome};
ghost use Rattle.order.specs.Order.{refused, reading};
ghost use Rattle.order.specs.Taking.{roomed, Roomy, kept_at};
ghost use Rattle.reader.specs.Read.{told, read_of};
ghost use Rattle.reader.specs.Telling.{stored_in, told_by, Tells};

use codes::{Mode, Refusal};
use order::Hand;

// What the reader gives back, C's struct: 0, the number of symbols in the frame, the report's
// length, the number of chips repaired, the smallest gap of the frame's symbols and the frame's
// polarity; or a refusal, the number of the symbol where it stands, and zeros. Nothing compares or
// prints one, so it derives no more.
#[repr(C)]
#[derive(Default, Drop)]
pub struct Reading {
    pub number: u32,
    pub place: u32,
    pub n: u32,
    pub count: u32,
    pub gap: u32,
    pub polarity: u32,
}

// Reads the frame of the mode's radio that the chips begin with, and stores its report. Each mode's
// loop is made by itself, of constants; a closure can't be generic over a type, so each entry has
// this `match`. The octets gather aside and are stored once: n is C's, and 0 on a refusal, so then
// nothing is: `store` tests it.
pub fn read(mode: u32, chips: &[u8], report: &mut [u8]) -> Reading
    ensures { outcome result report.new ≡ read_of mode chips.now report.old }
{
    let room = report.len();
    let mut octets = [0u8; 127];
    let hand = match mode {
        0 => scan::<codes::Bpsk>(chips, room, &mut octets),
        1 => scan::<codes::Oqpsk>(chips, room, &mut octets),
        2 => scan::<codes::LowBand>(chips, room, &mut octets),
        _ => return refusal(Refusal::BadMode.into(), 0),
    };
    let answer = tell(hand);
    store(octets, answer.n as usize, report);
    answer
}

// The reading order over the buffer, a loop within a loop and left by a label: the scope's form
// (docs/DECISIONS.md, "Forms by place"). The loop over a symbol's chips takes them eight at a time:
// it leaves both loops where one is no chip, with 5 and the place, and gathers the bits that
// matching takes. A refusal leaves the loop over symbols with the hand's number and place. `settle`
// stands before the last test, so that the frame's last octet is kept too.
fn scan<M: Mode>(chips: &[u8], room: usize, octets: &mut [u8; 127]) -> Hand
    ensures { Tells (radio_of M.NUMBER) room (reading (radio_of M.NUMBER) room chips.now) octets.new result }
{
    let size = codes::phy_of(M::NUMBER).size;
    let mut hand = steps::begin();
    'symbols: for part in chips.chunks_exact(size) {
        let mut bits: u64 = 0;
        'chips: for k in 0..codes::EIGHTS {
            let Some(more) = codes::gather(M::NUMBER, part, k, bits) else {
                hand = steps::stop(Refusal::NoChip.into(), hand);
                break 'symbols;
            };
            bits = more;
        }
        let symbol = matching::judge(M::NUMBER, matching::nearest(M::NUMBER, bits));
        let next = steps::follow(M::NUMBER, hand, symbol);
        if !matches!(next.number, codes::MORE | codes::DONE) {
            hand = steps::stop(next.number, hand);
            break 'symbols;
        }
        hand = settle::<M>(room, hand, next, octets);
        if hand.number != codes::MORE {
            break 'symbols;
        }
    }
    hand
}

// What a whole octet brings: the test of room, and the octet itself. Within an octet n stands as it
// was and nothing is to be kept, so most symbols pass here with one test. Its four values go one by
// one: a struct of them would be made at its one call and taken apart here.
fn settle<M: Mode>(room: usize, hand: Hand, next: Hand, octets: &mut [u8; 127]) -> Hand
    requires { Roomy M.NUMBER room next }
    ensures value { result ≡ roomed room hand next }
    ensures octets_after { octets.new ≡ kept_at M.NUMBER result octets.old }
{
    if !steps::whole_octets(M::NUMBER, next) {
        return next;
    }
    let held = with_room(room, hand, next);
    steps::keep(M::NUMBER, held, octets);
    held
}

// A report buffer shorter than n: 3. The room and both hands, as `roomed` has them.
fn with_room(room: usize, hand: Hand, next: Hand) -> Hand
    ensures { result ≡ roomed room hand next }
{
    if room < next.length as usize {
        return steps::stop(Refusal::NoRoom.into(), hand);
    }
    next
}

// The answer of a hand that has ended, or whose chips have run out, in the fields of C's struct.
fn tell(hand: Hand) -> Reading
    ensures { result ≡ told_by hand }
{
    match hand.number {
        codes::DONE => Reading {
            number: codes::DONE,
            place: hand.taken,
            n: hand.length,
            count: hand.count,
            gap: hand.gap,
            polarity: hand.polarity,
        },
        codes::MORE => refusal(Refusal::RunOut.into(), hand.taken),
        number => refusal(number, hand.taken),
    }
}

// What a refusal gives back: n, count, gap and polarity are 0. It takes any number, as the hand has
// any: `stop`, `follow` and `keep` of `steps` promise of all numbers, not of a Refusal's alone.
pub fn refusal(number: u32, place: u32) -> Reading
    ensures { result ≡ told (refused number place) }
{
    Reading {
        number,
        place,
        ..Reading::default()
    }
}

// Stores the first n octets over the first n bytes; nothing where there are not so many of both
// (`stored_in`): it can't fail.
// Octets and n go apart, as its promise has them (`stored_in`).
pub fn store(octets: [u8; 127], n: usize, report: &mut [u8])
    ensures { report.new ≡ stored_in n octets report.old }
{
    // Nothing to store, as after a refusal: without this test a refused take took a quarter more
    // time.
    if n == 0 {
        return;
    }
    if n <= octets.len() && n <= report.len() {
        report[..n].copy_from_slice(&octets[..n]);
    }
}
