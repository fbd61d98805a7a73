// What the writer gives back, and the start octet. The frame itself is a definition (specs/), and
// what is known of it are laws (proofs/): readers and writer both stand on these.
#![tactic(auto)]

ghost use Rattle.std.specs.Prelude.{◌≡◌};
ghost use Rattle.frame.specs.Write.{refused, answer_of};

use codes::Refusal;

// The start octet.
pub const START: u8 = 0xA7;

// What the writer gives back, C's struct: 0 and the chip count, or a refusal and 0.
#[repr(C)]
#[derive(Drop)]
pub struct Written {
    pub number: u32,
    pub chips: u32,
}

impl From<Result<u32, Refusal>> for Written {
    ghost from_gives = { λ outcome written. written ≡ answer_of outcome };

    fn from(outcome: Result<u32, Refusal>) -> Written {
        match outcome {
            Ok(chips) => Written {
                number: codes::DONE,
                chips,
            },
            Err(why) => refusal(why.into()),
        }
    }
}

// Refused: chip count 0. Of any number, as it promises (`refused`).
pub fn refusal(number: u32) -> Written
    ensures { result ≡ refused number }
{
    Written { number, chips: 0 }
}
