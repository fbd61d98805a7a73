// Radios whose words are eight turns of word 0 and the same eight with their odd chips inverted.
// Chips are laid in columns of eight bits: bit m of column c is chip nm + c, of n columns. To turn
// a word right by n chips is to turn each of its columns left by one bit; to invert its odd chips
// is to invert the odd columns. So words v and v + 8 differ from a symbol in as many even chips,
// and together in all odd ones: eight pairs of counts give sixteen distances. No word is kept but
// word 0, and nothing leaves the loops, so the back end looks at eight words at a time
// (proofs/Words.antt, proofs/Leasts.antt).
#![tactic(auto)]

ghost use Rattle.std.specs.Prelude.{◌≡◌, ℕ, ◌/◌, ◌≤◌};
ghost use Rattle.std.proofs.Common.{lit≤};
ghost use Rattle.codes.specs.Near.{nearest_in};
ghost use Rattle.codes.specs.declared.TheConstants.{OQPSK, LOWBAND};
ghost use Rattle.columns.specs.Columns.{first_third, four_columns, two_columns, turned_pair, parted, even_parted, odd_parted, apart_at, Half, Keyed, least_past, near_in};

// What such radios differ in: how gathered chips are laid in columns, word 0 as it is gathered, and
// how many odd chips a word has. For each radio its own loop is made, of constants.
trait Columned {
    ghost laid: { ℕ → ℕ };

    ghost WORD: { ℕ };

    ghost HALF: { ℕ };

    const WORD: u64;

    const HALF: u16;

    fn columns(bits: u64) -> u64
        ensures { result ≡ laid bits };

    ghost few: { HALF ≤ 16 };
}

// Mode 1: its 32 chips are four columns.
impl Columned for codes::Oqpsk {
    ghost laid = { four_columns };

    ghost WORD = { OQPSK.word };

    ghost HALF = { 16 };

    ghost few = { lit≤ tt };

    const WORD: u64 = codes::OQPSK.word;

    const HALF: u16 = 16;

    // Of four eights every second bit of a byte is a chip's, and the mask leaves nothing else; the
    // upper four bytes' bits go between the lower four's.
    fn columns(bits: u64) -> u64 {
        let z = bits & 0x5555555555555555;
        z % 0x100000000 + z / 0x100000000 * 2
    }
}

// Mode 2: its 16 chips are two columns.
impl Columned for codes::LowBand {
    ghost laid = { two_columns };

    ghost WORD = { LOWBAND.word };

    ghost HALF = { 8 };

    ghost few = { lit≤ tt };

    const WORD: u64 = codes::LOWBAND.word;

    const HALF: u16 = 8;

    // Of two eights every fourth bit of a byte is a chip's; pairs of bytes are laid over each
    // other, each a bit higher than the pair before.
    fn columns(bits: u64) -> u64 {
        let z = bits & 0x1111111111111111;
        let y = z % 0x100000000 + z / 0x100000000 * 4;
        y % 0x10000 + y / 0x10000 * 2
    }
}

// Two functions: as one over `Columned` its promise would be a law of each `impl`, and such a law
// can't cite proofs/Chosen.antt (tried). Three numbers in one, as `nearest` promises them.
pub fn nearest_of_four(bits: u64) -> u32
    ensures { result ≡ nearest_in 1 bits }
{
    near(&keys::<codes::Oqpsk>(bits))
}

pub fn nearest_of_two(bits: u64) -> u32
    ensures { result ≡ nearest_in 2 bits }
{
    near(&keys::<codes::LowBand>(bits))
}

// Of four columns the first and the third beside each other, which are the even chips, and the
// second and the fourth, the odd. Of two columns, one and one.
fn even_and_odd(columns: u64) -> (u16, u16)
    ensures even { result.0 ≡ first_third columns }
    ensures odd { result.1 ≡ first_third (columns / 256) }
{
    let [first, second, third, fourth, ..] = columns.to_le_bytes();
    (
        u16::from_le_bytes([first, third]),
        u16::from_le_bytes([second, fourth]),
    )
}

// Keys of the words, from the columns of the symbol and of word 0: the distance above the word's
// number and one: one number and no pair, since the order of numbers is the one that is wanted. (Of
// the word's number alone the first would be 0, and the back end would leave that word out of its
// vectors.)
fn keys<R: Columned>(bits: u64) -> [u16; 16]
    requires { Half R.HALF (odd_parted (R.laid bits) (R.laid R.WORD)) }
    ensures { Keyed (apart_at R.HALF (even_parted (R.laid bits) (R.laid R.WORD)) (odd_parted (R.laid bits) (R.laid R.WORD))) result }
{
    let (evens, odds) = even_and_odd(R::columns(bits));
    let (even, odd) = even_and_odd(R::columns(R::WORD));
    let mut k = [0u16; 16];
    for n in 0..8u16 {
        let e = parted(evens, even, n);
        let o = parted(odds, odd, n);
        let v = usize::from(n);
        k[v] = (e + o) * 32 + n + 1;
        k[v + 8] = (e + R::HALF - o) * 32 + n + 9;
    }
    k
}

// What the keys tell, as `nearest` gives it. The next-nearest word has the least key above the
// nearest's.
fn near(k: &[u16; 16]) -> u32
    ensures { result ≡ near_in k.now }
{
    let m = least_past(k, 0);
    let n = u32::from(least_past(k, m.wrapping_add(1)));
    let m = u32::from(m);
    n / 32 * 1024 + m / 32 * 16 + (m + 15) % 16
}

// The least key from a number on. Keys below it wrap to the top, so that no key is left out by a
// test, and the loop has no exit.
fn least_past(k: &[u16; 16], from: u16) -> u16
    ensures { result ≡ least_past from k.now }
{
    k.iter()
        .map(|key| key.wrapping_sub(from))
        .fold(u16::MAX, u16::min)
        .wrapping_add(from)
}

// How many of two columns' chips differ from those of a word's, turned left by so many bits. The
// cast loses nothing, of 16 at most, where `TryFrom` has an error that can't be.
fn parted(chips: u16, pair: u16, by: u16) -> u16
    ensures { (result ≡ parted chips pair by) × (result ≤ 16) }
{
    (chips ^ turned_pair(pair, by)).count_ones() as u16
}

// Two columns of a word, turned.
fn turned_pair(pair: u16, by: u16) -> u16
    ensures { result ≡ turned_pair pair by }
{
    let by = u32::from(by);
    let [first, third] = pair.to_le_bytes();
    u16::from_le_bytes([first.rotate_left(by), third.rotate_left(by)])
}
