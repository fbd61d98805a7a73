// The stepping receiver: the reader's reading, one symbol at a call. The record goes into each call
// and comes back from it; it holds up to 127 octets itself. Its fields are numbers, so every bit
// pattern is a record, and each call says what it makes of it. A part is matched by itself (the
// room `matching`), and its symbol is taken by the reader's own functions, so the laws of the
// reader's loop carry over (proofs/Stepping.antt).
#![tactic(auto)]

ghost use Rattle.std.specs.Prelude.{◌≡◌, false, List, ℕ, MatchResult};
ghost use Rattle.codes.specs.Numbers.{DONE, MORE, number_of};
ghost use Rattle.frame.specs.Outcome.{outcome};
ghost use Rattle.reader.specs.Read.{told};
ghost use Rattle.receiver.specs.Record.{step, start_of, forged, hand_of, held, took_symbol, push_of, finish_of, takes, take_of};

use codes::{Phy, Refusal, Symbol};
use order::Hand;
use reader::Reading;

// What a receiver is between two calls, in the order of the C interface. A hand's numbers stand one
// by one, 0 before they are known, since `fresh`, `held` and `forged` (specs/Record.antt) name the
// record's own fields. Nothing compares or prints a record or a Step, so they derive no more.
#[repr(C)]
#[derive(Clone, Copy)]
pub struct Receiver {
    // as given to start
    pub mode: u32,
    // 13 while open, 0 ended well, else the number of the refusal
    pub ended: u32,
    // symbols taken: the number of the next symbol; where it ended, the place
    pub taken: u32,
    // n once the length octet is read, 0 before
    pub length: u32,
    // chips repaired so far
    pub count: u32,
    // the last symbol's value: in mode 0 the encoded bit before the next one
    pub last: u32,
    // the octet in hand
    pub octet: u32,
    // the smallest gap of the symbols so far
    pub gap: u32,
    // the polarity: in mode 0 what symbol 0 read as
    pub polarity: u32,
    // the report's octets so far
    pub octets: [u8; 127],
}

// A call's number, and the record that comes back: C's struct.
#[repr(C)]
#[derive(Drop)]
pub struct Step {
    pub number: u32,
    pub receiver: Receiver,
}

impl From<Receiver> for Hand {
    ghost from_gives = { λ receiver hand. hand ≡ hand_of receiver };

    // The numbers that the reader carries too.
    fn from(receiver: Receiver) -> Hand {
        Hand {
            number: receiver.ended,
            taken: receiver.taken,
            length: receiver.length,
            count: receiver.count,
            last: receiver.last,
            octet: receiver.octet,
            gap: receiver.gap,
            polarity: receiver.polarity,
        }
    }
}

impl Receiver {
    // A record for a mode, and 13; a mode that has no radio: one already ended with 1, and 1. A
    // number in both ways, since `stop` takes any (`stopped`).
    pub fn start(mode: u32) -> Step
        ensures { result ≡ start_of mode }
    {
        let number = match Phy::try_from(mode) {
            Ok(_) => codes::MORE,
            Err(refusal) => refusal.into(),
        };
        Receiver::held(mode, steps::stop(number, steps::begin()), [0; 127])
    }

    // One symbol's chips: 34, 10 and 11 give the record back as it was. Otherwise 13 where more is
    // wanted; anything else ends the record, 0 where the frame is complete, or a refusal, which
    // leaves its other fields as they were.
    pub fn push(self, part: &[u8]) -> Step
        ensures { result ≡ push_of self part.now }
    {
        match self.read(part) {
            Ok(symbol) => self.follow(symbol),
            Err(refusal) => self.refuse(refusal),
        }
    }

    // No more symbols: an open record ends with 4. 34 and 10 give the record back as it was.
    pub fn finish(self) -> Step
        ensures { result ≡ finish_of self }
    {
        if let Err(refusal) = self.ready() {
            return self.refuse(refusal);
        }
        let number = Refusal::RunOut.into();
        Step {
            number,
            receiver: Receiver {
                ended: number,
                ..self
            },
        }
    }

    // What the record has come to: 34, 12, the refusal that ended it, 3 where the lent buffer is
    // too short, or 0 and the report. n is C's, and 0 on anything but 0, so then nothing is stored:
    // `store` tests it.
    pub fn take(self, report: &mut [u8]) -> Reading
        ensures { outcome result report.new ≡ take_of self report.old }
    {
        let answer = self.tell(report.len());
        reader::store(self.octets, answer.n as usize, report);
        answer
    }

    // Whether it can go on: not where forged or ended.
    fn ready(self) -> Result<(), Refusal>
        ensures { MatchResult result (λ _. (forged self ≡ false) × (self.ended ≡ MORE))
            (λ e. ((part : List ℕ) → step (number_of e) self ≡ push_of self part) × (step (number_of e) self ≡ finish_of self)) }
    {
        if self.forged() {
            return Err(Refusal::Forged);
        }
        if self.ended != codes::MORE {
            return Err(Refusal::Ended);
        }
        Ok(())
    }

    // Whether the calls make no such record: open or ended well, with numbers that no frame has.
    // The product is of 64 bits, so it doesn't wrap. `ended` is C's number. It is asked again at
    // the end: one `match` of it, to a flag, makes push 7 to 10 in 100 slower.
    fn forged(self) -> bool
        ensures { result ≡ forged self }
    {
        if !matches!(self.ended, codes::MORE | codes::DONE) {
            return false;
        }
        let Ok(phy) = Phy::try_from(self.mode) else {
            return true;
        };
        if 127 < self.length {
            return true;
        }
        if u64::from(phy.limit) * u64::from(self.taken) < u64::from(self.count) {
            return true;
        }
        // six octets stand before the report
        let total = (6 + self.length as usize) * phy.per;
        if self.ended == codes::MORE {
            total <= self.taken as usize
        } else {
            self.taken as usize != total
        }
    }

    // The record as it was.
    fn refuse(self, refusal: Refusal) -> Step
        ensures { result ≡ step (number_of refusal) self }
    {
        Step {
            number: refusal.into(),
            receiver: self,
        }
    }

    // The symbol that a part says, where the record takes it. It is C's `Symbol`: its number tells
    // whether there is one.
    fn read(self, part: &[u8]) -> Result<Symbol, Refusal>
        ensures { MatchResult result (λ symbol. took_symbol self symbol ≡ push_of self part.now)
            (λ e. step (number_of e) self ≡ push_of self part.now) }
    {
        self.ready()?;
        let symbol = matching::match_part(self.mode, part);
        if symbol.number == Refusal::BadPart.into() {
            return Err(Refusal::BadPart);
        }
        Ok(symbol)
    }

    // A symbol taken by the reader's steps, on the record's numbers alone. Its octets are copied
    // once: as they are, or, where one may have become whole, with that one kept.
    fn follow(self, symbol: Symbol) -> Step
        ensures { result ≡ took_symbol self symbol }
    {
        let hand = steps::follow(self.mode, self.into(), symbol);
        if !steps::whole_octets(self.mode, hand) {
            return Receiver::held(self.mode, hand, self.octets);
        }
        let mut octets = self.octets;
        steps::keep(self.mode, hand, &mut octets);
        Receiver::held(self.mode, hand, octets)
    }

    // The record of a mode with these numbers and octets, and the number it has come to. Field by
    // field: C's struct has its own (so in `report`).
    fn held(mode: u32, hand: Hand, octets: [u8; 127]) -> Step
        ensures { result ≡ step hand.number (held mode hand octets) }
    {
        Step {
            number: hand.number,
            receiver: Receiver {
                mode,
                ended: hand.number,
                taken: hand.taken,
                length: hand.length,
                count: hand.count,
                last: hand.last,
                octet: hand.octet,
                gap: hand.gap,
                polarity: hand.polarity,
                octets,
            },
        }
    }

    // What take gives back with so much room; the room alone, since the report is stored at the
    // end.
    fn tell(self, room: usize) -> Reading
        ensures { result ≡ told (takes self room) }
    {
        if self.forged() {
            return reader::refusal(Refusal::Forged.into(), 0);
        }
        match self.ended {
            codes::MORE => reader::refusal(Refusal::NotEnded.into(), 0),
            codes::DONE => self.report(room),
            refusal => reader::refusal(refusal, self.taken),
        }
    }

    // The same of a record that ended well. It may hold any polarity, as a reading's hand does not:
    // hence the polarity reduced, and told in a radio that has two; a test, since `chained` has two
    // values.
    fn report(self, room: usize) -> Reading
        requires { (forged self ≡ false) × (self.ended ≡ DONE) }
        ensures { result ≡ told (takes self room) }
    {
        if room < self.length as usize {
            return reader::refusal(Refusal::NoRoom.into(), self.taken);
        }
        let phy = codes::phy_of(self.mode);
        Reading {
            number: codes::DONE,
            place: self.taken,
            n: self.length,
            count: self.count,
            gap: self.gap,
            polarity: if phy.chained { self.polarity % 2 } else { 0 },
        }
    }
}
