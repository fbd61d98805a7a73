// The radios' numbers, and a symbol's chips gathered as bits. What radios differ in stands in rows,
// one for each, and a mode number is looked up there once; all else goes by the row's numbers.
// Whoever reads gathers a symbol's chips eight at a time, each eight tested as it is gathered, and
// has the bits matched (the room `matching`). That at most one word lies within the limit is a law
// over word length, number of words and limit (proofs/Unique.antt); that the symbol of the bits is
// that of the chips is shown in proofs/Gathering.antt. A mode comes in as a number here and in the
// rooms above, since it does from C, and each public promise is of every number.
#![tactic(auto)]

ghost use Rattle.std.specs.Prelude.{◌≡◌, ℕ, true, refl, ◌+◌, ◌<◌, ◌≤◌, length, MatchOption};
ghost use Rattle.codes.specs.Numbers.{number_of};
ghost use Rattle.codes.specs.Radio.{known};
ghost use Rattle.codes.specs.Packed.{from, packed};
ghost use Rattle.codes.specs.Gathered.{gathered, gathered_at};
ghost use Rattle.codes.specs.Phy.{phy_at, IsRowOf};

// Why a call gives nothing, each with its number (specs/Numbers.antt). 9 is withdrawn, and its
// number not used again.
#[derive(Clone, Copy, PartialEq, Eq)]
pub enum Refusal {
    BadMode = 1,
    TooLong = 2,
    NoRoom = 3,
    RunOut = 4,
    NoChip = 5,
    Lost = 6,
    Preamble = 7,
    BadStart = 8,
    Ended = 10,
    BadPart = 11,
    NotEnded = 12,
    TooFew = 14,
    BadCheck = 15,
    AllZero = 16,
    Forged = 34,
}

impl From<Refusal> for u32 {
    ghost from_gives = { λ refusal number. number ≡ number_of refusal };

    fn from(refusal: Refusal) -> u32 {
        refusal as u32
    }
}

// The two numbers given back that are no refusal: done, and more wanted. Numbers, as C's structs
// and the hand have them.
pub const DONE: u32 = 0;

pub const MORE: u32 = 13;

// The smallest gap before the first symbol: above every gap. A number and no Option, since C's
// record holds it (`fresh` in `receiver`).
pub const NOGAP: u32 = 0xFFFFFFFF;

// A symbol has at most so many eights.
pub const EIGHTS: usize = 4;

// What one symbol's chips say, C's struct, so a number with others beside it: 0 with the word's
// value, how far it is and how far the next-nearest other word is; 6 with the same three of the
// nearest word; or another refusal with zeros.
#[repr(C)]
#[derive(Drop)]
pub struct Symbol {
    pub number: u32,
    pub value: u32,
    pub distance: u32,
    pub next: u32,
}

// A radio's numbers, by value: what everything below `phy_of` goes by.
#[derive(Clone, Copy)]
pub struct Phy {
    // chips in a symbol; 0 where there is no radio
    pub size: usize,
    // symbols of an octet
    pub per: usize,
    // values of a symbol, one for each word
    pub values: usize,
    // the accepted distance
    pub limit: u32,
    // whether each bit is added to the one encoded before it: a yes or no
    pub chained: bool,
    // the eights that a symbol is gathered in, chips from the start of one to that of the next, and
    // by how many bits each is lifted above the one before
    pub eights: usize,
    pub step: usize,
    pub lift: usize,
    // word 0, gathered: every other word is worked out of it
    pub word: u64,
}

// Mode 0, 868/915 BPSK. Fifteen chips are two eights, which both have chip 7.
pub const BPSK: Phy = Phy {
    size: 15,
    per: 8,
    values: 2,
    limit: 6,
    chained: true,
    eights: 2,
    step: 7,
    lift: 4,
    word: 0x0100011001011111,
};

// Mode 1, 2450 O-QPSK.
pub const OQPSK: Phy = Phy {
    size: 32,
    per: 2,
    values: 16,
    limit: 5,
    chained: false,
    eights: 4,
    step: 8,
    lift: 2,
    word: 0x0554404111401505,
};

// Mode 2, 868/915 O-QPSK.
pub const LOWBAND: Phy = Phy {
    size: 16,
    per: 2,
    values: 16,
    limit: 2,
    chained: false,
    eights: 2,
    step: 8,
    lift: 4,
    word: 0x1001110101110000,
};

// A radio as a type, for loops that are made for each radio by itself, of its constants: whoever
// has the type has a mode with a radio.
pub trait Mode {
    const NUMBER: u32;

    ghost NUMBER: { ℕ };

    ghost is_known: { known NUMBER ≡ true };
}

pub struct Bpsk;

impl Mode for Bpsk {
    const NUMBER: u32 = 0;

    ghost NUMBER = { 0 };

    ghost is_known = { refl };
}

pub struct Oqpsk;

impl Mode for Oqpsk {
    const NUMBER: u32 = 1;

    ghost NUMBER = { 1 };

    ghost is_known = { refl };
}

pub struct LowBand;

impl Mode for LowBand {
    const NUMBER: u32 = 2;

    ghost NUMBER = { 2 };

    ghost is_known = { refl };
}

// What a mode without a radio has by the promise of `phy_of` (`phy_at`). Each zero is written out,
// since a constant can't call `default`.
pub const NORADIO: Phy = Phy {
    size: 0,
    per: 0,
    values: 0,
    limit: 0,
    chained: false,
    eights: 0,
    step: 0,
    lift: 0,
    word: 0,
};

// The row of a mode that has a radio. Besides this, `nearest` of `matching` asks which radio a mode
// is, and each entry where a mode becomes a type (`Mode`).
impl TryFrom<u32> for Phy {
    type Error = Refusal;

    ghost try_from_gives = { IsRowOf };

    fn try_from(mode: u32) -> Result<Self, Refusal> {
        match mode {
            0 => Ok(BPSK),
            1 => Ok(OQPSK),
            2 => Ok(LOWBAND),
            _ => Err(Refusal::BadMode),
        }
    }
}

// The row of any mode, for places that know it to be a radio's.
pub fn phy_of(mode: u32) -> Phy
    ensures { result ≡ phy_at mode }
{
    Phy::try_from(mode).unwrap_or(NORADIO)
}

// Tests eight k of a symbol's chips, and adds it to the bits gathered before it; none where it runs
// out of chips, one of its bytes is no chip, or the mode has no radio. An eight that a symbol
// doesn't have leaves the bits as they are, so that a loop over four serves every mode, and has a
// constant length. Part and k go apart, as its promise has them (`gathered_at`).
pub fn gather(mode: u32, part: &[u8], k: usize, bits: u64) -> Option<u64>
    ensures { result ≡ gathered_at mode part.now k bits }
{
    let Ok(phy) = Phy::try_from(mode) else {
        return None;
    };
    phy.gather(part, k, bits)
}

impl Phy {
    // The same by the row's eights. A sum, since the bits of one eight lie between those of the
    // others; it wraps only for bits that were not gathered.
    fn gather(self, part: &[u8], k: usize, bits: u64) -> Option<u64>
        requires { (self.eights ≤ 4) × (self.step ≤ 8) × (self.lift ≤ 8) }
        ensures { result ≡ gathered self.eights self.step self.lift part.now k bits }
    {
        if self.eights <= k {
            return Some(bits);
        }
        let eight = eight_at(part, k * self.step)?;
        // a chip has no bit but the lowest
        if eight & 0xFEFEFEFEFEFEFEFE != 0 {
            return None;
        }
        Some(bits.wrapping_add(eight << (k * self.lift)))
    }
}

// Eight bytes as the digits of one number, the first the lowest; none where there are fewer. The
// back end makes one load of it.
fn eight_at(part: &[u8], at: usize) -> Option<u64>
    ensures { MatchOption result (length part.now < at + 8) (λ x. (at + 8 ≤ length part.now) × (x ≡ packed (from part.now at) 8)) }
{
    let eight = part.get(at..)?.first_chunk()?;
    Some(u64::from_le_bytes(*eight))
}
