// Matching: the word nearest to a symbol's gathered chips, the next-nearest, and the symbol that
// they say. How far the words are is counted on the bits (fifteen.rt, and the room `columns`). The
// nearest word and both distances are the definition's own, so that what is made of them is the
// symbol (proofs/Judging.antt).
#![tactic(auto)]

ghost use Rattle.std.specs.Prelude.{◌≡◌};
ghost use Rattle.codes.specs.Numbers.{number_of};
ghost use Rattle.codes.specs.Symbol.{refused, match_of};
ghost use Rattle.codes.specs.Near.{nearest_in};
ghost use Rattle.matching.specs.Judged.{judged_at, given};

use codes::{Mode, Phy, Refusal, Symbol};

mod fifteen;

// Matching one symbol's chips by themselves: 1, 11 and 5 in that order, with zeros; then 0, or 6
// where no word is within the limit, with the nearest word, its distance and the next-nearest
// other word's. Each mode's loop is made by itself, of constants. A closure can't be generic over a
// type, so each entry that takes a mode's number has this `match`: this one, `read` of `reader` and
// `try_write` of `writer`. Put into its callers: four numbers that a call hands back go through
// memory, and a refusal took 2.3 times as long.
#[inline(always)]
pub fn match_part(mode: u32, part: &[u8]) -> Symbol
    ensures { result ≡ match_of mode part.now }
{
    let symbol = match mode {
        0 => read_part::<codes::Bpsk>(part),
        1 => read_part::<codes::Oqpsk>(part),
        2 => read_part::<codes::LowBand>(part),
        _ => Err(Refusal::BadMode),
    };
    symbol.unwrap_or_else(refusal)
}

// The symbol of a part, its chips gathered and matched as the reader does it, or why there is none.
// The reader has this loop within its own, which the scope wants around it; both go by one law
// (`judged_part`). The row is looked up by the number: as a constant of `Mode` it would need one
// more law for each radio.
fn read_part<M: Mode>(part: &[u8]) -> Result<Symbol, Refusal>
    ensures { given result ≡ match_of M.NUMBER part.now }
{
    if part.len() != codes::phy_of(M::NUMBER).size {
        return Err(Refusal::BadPart);
    }
    let mut bits: u64 = 0;
    for k in 0..codes::EIGHTS {
        bits = codes::gather(M::NUMBER, part, k, bits).ok_or(Refusal::NoChip)?;
    }
    Ok(judge(M::NUMBER, nearest(M::NUMBER, bits)))
}

// The word nearest to the chips that gathered bits hold, the lowest number on a tie, and the
// next-nearest: 1024 times how far that is, 16 times how far the nearest is, and its number, in one
// value, which goes from function to function without a store; its promise is of that value, and so
// is `judge`'s. 0 for a mode that has no radio (`nearest_in`), since it can't fail. By the mode's
// number, as its promise is; each radio has a way of its own.
pub fn nearest(mode: u32, bits: u64) -> u32
    ensures { result ≡ nearest_in mode bits }
{
    match mode {
        0 => fifteen::nearest(bits),
        1 => columns::nearest_of_four(bits),
        2 => columns::nearest_of_two(bits),
        _ => 0,
    }
}

// The symbol that such a value says: 1, then 0 or 6, a number in both, since 6 has the same values
// beside it.
pub fn judge(mode: u32, near: u32) -> Symbol
    ensures { result ≡ judged_at mode near }
{
    let Ok(phy) = Phy::try_from(mode) else {
        return refusal(Refusal::BadMode);
    };
    let distance = near / 16 % 64;
    let number = if phy.limit < distance {
        Refusal::Lost.into()
    } else {
        codes::DONE
    };
    Symbol {
        number,
        value: near % 16,
        distance,
        next: near / 1024,
    }
}

// A refusal's other numbers are 0, each written out, as `refused` (specs/Symbol.antt of `codes`)
// has them: no other place would use a `Default` of `Symbol`, and no other struct has its fields.
fn refusal(why: Refusal) -> Symbol
    ensures { result ≡ refused (number_of why) }
{
    Symbol {
        number: why.into(),
        value: 0,
        distance: 0,
        next: 0,
    }
}
