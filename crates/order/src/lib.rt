// What is carried from symbol to symbol, the hand. The reading order is a definition (specs/); that
// the hand's numbers are those of the symbols before (proofs/Carried.antt), and that what follows
// from them is what the reading order says of all of these (proofs/Turns.antt), are laws. What
// makes one hand of another is the room `steps`.
#![tactic(auto)]

// What is carried from symbol to symbol: 13 while more is wanted, else 0 or the refusal; symbols
// taken; n once it is read, 0 before, as `begun` and C's record have it; chips repaired; the last
// symbol's value; the octet in hand; the smallest gap; the polarity.
#[derive(Clone, Copy, Default)]
pub struct Hand {
    // a number, no enum: `stopped` and `followed` (specs/Taking.antt) are of any, as C's record is
    pub number: u32,
    pub taken: u32,
    pub length: u32,
    pub count: u32,
    pub last: u32,
    pub octet: u32,
    pub gap: u32,
    pub polarity: u32,
}
