// The reading order, one symbol at a time: what a symbol's match makes of the hand. The functions
// meet the ways of one step that `order` has laws for (proofs/Steps.antt, proofs/Rules.antt there).
// The reader's loop and the stepping receiver's push take a symbol by the same functions. A u32
// becomes a usize by `as`, since there is no `From` for it. Mode, hand and symbol are parameters of
// their own, as `followed`, `whole_at` and `kept_at` have them.
#![tactic(auto)]

ghost use Rattle.std.specs.Prelude.{true, false, ◌≡◌, ◌≢◌, ◌*◌, ◌%◌, ◌<◌, ◌⊎◌, ℕ, List, MatchOption, MatchResult, slice_set};
ghost use Rattle.codes.specs.Numbers.{DONE, BADSTART, MORE};
ghost use Rattle.codes.specs.declared.Refusal.TheVariants.{BadMode, Preamble, BadStart};
ghost use Rattle.codes.specs.Radio.{known, radio_of};
ghost use Rattle.codes.specs.Phy.{phy_of};
ghost use Rattle.order.specs.Order.{rules};
ghost use Rattle.order.specs.Taking.{begun, stopped, at_first, raw_by, shifted_by, length_after, moved, onward, followed, whole_at, kept_in, kept_at};
ghost use Rattle.steps.specs.Bounded.{Bounded};

use codes::{Phy, Refusal, Symbol};
use order::Hand;

// Before the first symbol.
pub fn begin() -> Hand
    ensures { result ≡ begun }
{
    Hand {
        number: codes::MORE,
        gap: codes::NOGAP,
        ..Hand::default()
    }
}

// Ends with a number, which may be any (`stopped`); all else stays as it was before the symbol.
pub fn stop(number: u32, hand: Hand) -> Hand
    ensures { result ≡ stopped number hand }
{
    Hand { number, ..hand }
}

// What follows a match, at the symbol after those taken: 1, the symbol's own number where it isn't
// 0, then 7 and 8; 0 where the frame is complete, 13 where more is wanted. A refusal leaves the
// other numbers as they were. The hand and the symbol may hold anything: hence what is reduced or
// wraps below.
pub fn follow(mode: u32, hand: Hand, symbol: Symbol) -> Hand
    ensures { result ≡ followed mode hand symbol }
{
    take(mode, hand, symbol).unwrap_or_else(|number| stop(number, hand))
}

// The hand with the symbol taken; or a refusal, as a number, since the symbol's own may be any.
fn take(mode: u32, hand: Hand, symbol: Symbol) -> Result<Hand, u32>
    ensures { MatchResult result (λ next. next ≡ followed mode hand symbol) (λ number. stopped number hand ≡ followed mode hand symbol) }
{
    let row = Row::of(mode)?;
    if symbol.number != codes::DONE {
        return Err(symbol.number);
    }
    let mut next = row.decode(hand, symbol.value)?;
    if (hand.taken as usize + 1).is_multiple_of(row.phy.per) {
        next = row.rule(next)?;
    }
    Ok(advance(next, symbol))
}

// One symbol more.
fn advance(hand: Hand, symbol: Symbol) -> Hand
    ensures { result ≡ moved hand hand.number hand.length symbol hand.octet hand.polarity }
{
    Hand {
        taken: hand.taken.wrapping_add(1),
        count: hand.count.wrapping_add(symbol.distance),
        last: symbol.value,
        gap: symbol.next.wrapping_sub(symbol.distance).min(hand.gap),
        ..hand
    }
}

// Whether the symbols taken are whole octets. Where they aren't, `keep` changes nothing.
#[tactic(auto, unfolding(order::specs::Taking::whole_at))]
pub fn whole_octets(mode: u32, hand: Hand) -> bool
    ensures { result ≡ whole_at mode hand }
{
    Row::of(mode).is_ok_and(|row| (hand.taken as usize).is_multiple_of(row.phy.per))
}

// Keeps the octet in hand where it is whole and one of the report's, and does nothing else, as
// `kept_at` has it: it can't fail. The hand may hold anything: hence the octet's lowest byte.
pub fn keep(mode: u32, hand: Hand, octets: &mut [u8; 127])
    ensures { octets.new ≡ kept_at mode hand octets.old }
{
    let Ok(row) = Row::of(mode) else {
        return;
    };
    if let Some(k) = row.place(hand) {
        octets[k] = hand.octet.to_le_bytes()[0];
    }
}

// The numbers of a mode's radio, within their bounds.
#[derive(Clone, Copy)]
struct Row {
    phy: Phy,
    ghost bounded: { Bounded phy },
}

impl Row {
    // Refused where the mode has no radio.
    fn of(mode: u32) -> Result<Row, Refusal>
        ensures { MatchResult result (λ row. (known mode ≡ true) × (row.phy ≡ phy_of (radio_of mode))) (λ e. (known mode ≡ false) × (e ≡ BadMode)) }
    {
        let phy = Phy::try_from(mode)?;
        Ok(Row { phy })
    }

    // Values of a symbol.
    fn values(self) -> u32
        ensures { result ≡ self.phy.values }
    {
        // 16 at most (`few_values`); `TryFrom` would give an error that can't be
        self.phy.values as u32
    }

    // The octet and the polarity that a value brings; in the preamble only a raw symbol of 0. The
    // first symbol of a chain settles the polarity: its own value then stands before it, so that
    // its raw symbol is 0. The test for it stands within the preamble's: at every symbol it made
    // reading 35 in 100 slower in mode 0, and a function that gave the pair 6 to 22.
    fn decode(self, hand: Hand, value: u32) -> Result<Hand, Refusal>
        ensures { let raw = raw_by self.phy.chained self.phy.values (at_first self.phy.chained hand.taken hand.last value) value in
            let polarity = at_first self.phy.chained hand.taken hand.polarity value in
            MatchResult result
            (λ h. (h ≡ record hand { number = MORE; octet = shifted_by self.phy.values hand.octet raw; polarity = polarity }) × (hand.taken < 4 * self.phy.per → raw ≡ 0))
            (λ e. (e ≡ Preamble) × (hand.taken < 4 * self.phy.per) × (raw ≢ 0)) }
    {
        let mut raw = self.raw_of(hand.last, value);
        let mut polarity = hand.polarity;
        if (hand.taken as usize) < 4 * self.phy.per {
            if self.phy.chained && hand.taken == 0 {
                raw = 0;
                polarity = value;
            }
            if raw != 0 {
                return Err(Refusal::Preamble);
            }
        }
        Ok(Hand {
            number: codes::MORE,
            octet: self.shift(hand.octet, raw),
            polarity,
            ..hand
        })
    }

    // The raw symbol of a value, after the last one.
    fn raw_of(self, last: u32, value: u32) -> u32
        ensures value { result ≡ raw_by self.phy.chained self.phy.values last value }
        ensures few { result < 16 }
    {
        let values = self.values();
        // two values where it is chained: a test, as in `raw_by`
        if self.phy.chained {
            (last % values + value % values) % 2
        } else {
            value % values
        }
    }

    // The octet in hand: the raw symbol enters at the top, and what was there moves down.
    fn shift(self, octet: u32, raw: u32) -> u32
        requires { raw < 16 }
        ensures { result ≡ shifted_by self.phy.values octet raw }
    {
        let values = self.values();
        octet % 256 / values + raw * (256 / values)
    }

    // What a whole octet brings: the start octet 8 where it is another, the length octet n, the
    // last octet of the frame 0. An n just read has room in every report, so 3 is not among them.
    // The parts of the frame are plain numbers of octets, as in `rules` (order/specs/Order.antt);
    // so they are in `decode` and `place`.
    fn rule(self, hand: Hand) -> Result<Hand, Refusal>
        ensures { let n = length_after self.phy.per hand.taken hand.length hand.octet in
            let number = rules self.phy.per 127 hand.taken 0 hand.octet n in
            MatchResult result
            (λ h. (h ≡ record hand { number = number; length = n }) × ((number ≡ MORE) ⊎ (number ≡ DONE)))
            (λ e. (e ≡ BadStart) × (number ≡ BADSTART)) }
    {
        let symbols = hand.taken as usize + 1;
        if symbols == 5 * self.phy.per && hand.octet != u32::from(frame::START) {
            return Err(Refusal::BadStart);
        }
        let length = self.length_after(hand);
        let number = if symbols == (6 + length as usize) * self.phy.per {
            codes::DONE
        } else {
            codes::MORE
        };
        Ok(Hand {
            number,
            length,
            ..hand
        })
    }

    // n, which the length octet brings: its low seven bits. The top one is reserved, and not
    // looked at.
    fn length_after(self, hand: Hand) -> u32
        ensures { result ≡ length_after self.phy.per hand.taken hand.length hand.octet }
    {
        if hand.taken as usize + 1 == 6 * self.phy.per {
            hand.octet % 128
        } else {
            hand.length
        }
    }

    // Which octet of the report is in hand, and whole; after a refusal, which took no symbol, none.
    fn place(self, hand: Hand) -> Option<usize>
        ensures { MatchOption result
            ((octets : List ℕ) → octets ≡ onward hand.number (kept_in self.phy.per hand octets) octets)
            (λ k. (k < 127) × ((octets : List ℕ) → slice_set octets k (hand.octet % 256) ≡ onward hand.number (kept_in self.phy.per hand octets) octets)) }
    {
        if !matches!(hand.number, codes::MORE | codes::DONE) {
            return None;
        }
        let taken = hand.taken as usize;
        if !taken.is_multiple_of(self.phy.per) {
            return None;
        }
        (taken / self.phy.per).checked_sub(7).filter(|k| *k < 127)
    }
}
