// The words of a mode's radio as runs of one strip of 128 chips, for whoever writes many
// symbols: a strip is made once and lent, and each word is copied out of it. No word stands here
// chip by chip: a strip is worked out from word 0 by the rule of the words (`codes`,
// specs/Radio.antt), and shown to hold each of them (proofs/Runs.antt). The loop has a constant
// length where the mode is constant, and each chip is a function of its index, so the back end then
// computes all of them and only stores.
#![tactic(auto)]

ghost use Rattle.std.specs.Prelude.{◌≡◌};
ghost use Rattle.strips.specs.Strip.{Fits, strip_at, row_at, chip_of, flip_of};

// Word 0 twice, and both with chips inverted; zeros for a mode that has no radio (`strip_at`),
// since it can't fail.
#[tactic(auto, using(crate::proofs::Runs::phy_few))]
pub fn strip(mode: u32) -> [u8; 128]
    ensures { result ≡ strip_at mode }
{
    let phy = codes::phy_of(mode);
    let half = 16 * phy.eights;
    let mut strip = [0u8; 128];
    for i in 0..2 * half {
        let word_chip = chip(phy, i);
        let x = if i < half {
            word_chip
        } else {
            word_chip ^ flip(phy.values, i)
        };
        strip[i] = x;
    }
    strip
}

// Where the word of a value begins in it; 0 where there is no such word (`row_at`), since it can't
// fail. A word turned right by so many chips is read from the doubled word, as many chips before
// its second half. A bit's words stand 32 apart, since 32 times a bit is a shift: of 15 times a bit
// the back end makes a choice of two, and of that a jump, which a report's bits leave hard to
// foresee.
#[tactic(auto, using(crate::proofs::Runs::phy_few, crate::proofs::Runs::row_few))]
pub fn row_of(mode: u32, v: usize) -> usize
    ensures { result ≡ row_at mode v }
{
    let phy = codes::phy_of(mode);
    if phy.values <= v {
        return 0;
    }
    // the words that are turns of word 0
    let turns = phy.values / 2;
    16 * phy.eights * (v / turns) + 8 * phy.eights - phy.eights * (v % turns)
}

// Chip i of word 0, read over and over. Fifteen chips have a sixteenth after them, which no word
// has. The cast is of a bit and loses nothing.
fn chip(phy: codes::Phy, i: usize) -> u8
    requires { Fits phy }
    ensures { result ≡ chip_of phy i }
{
    let j = i % (8 * phy.eights);
    let e = j / 8;
    ((phy.word >> ((j - e * phy.step) % 8 * 8 + e * phy.lift)) % 2) as u8
}

// Whether chip i is inverted in the second half: of two words every chip, of sixteen the odd ones.
// A value and no step, and a function since the proof goes by it (`flip_of`). The cast loses
// nothing: it is of a bit.
fn flip(values: usize, i: usize) -> u8
    ensures { result ≡ flip_of values i }
{
    if values == 2 { 1 } else { (i % 2) as u8 }
}
