// The checked profile: a writer that ends each report in its FCS, and a reader that refuses a
// report without a right one, over the plain writer and reader. Neither lets a report of nothing
// but zeros through: its FCS is 0, so that it would pass, and zeros are what an unplugged rope
// gives. The promises name the plain ones' definitions, so the proofs are those of the few tests in
// between, of the octets appended, and of the room that the plain reader is lent
// (proofs/Room.antt).
#![tactic(auto)]

ghost use Rattle.std.specs.Prelude.{◌≡◌, ◌+◌, ◌≤◌, ◌↔◌, ℕ, List, length, IsOk, IfErr, MatchResult};
ghost use Rattle.codes.specs.Numbers.{DONE, number_of};
ghost use Rattle.frame.specs.Outcome.{outcome};
ghost use Rattle.frame.specs.Write.{answer_of, unwritten, written};
ghost use Rattle.fcs.specs.Fcs.{with_fcs};
ghost use Rattle.checked.specs.Profile.{all_zero, right_fcs, check_of, read_checked_of, written_checked};

use codes::{Phy, Refusal};
use frame::Written;

// Writes the frame of a report with its FCS appended: 1, 14, 2, 16, then the plain writer's 3. The
// chip count, or why there is none. Loose parameters and one equation, as in the plain writer.
pub fn try_write(mode: u32, report: &[u8], chips: &mut [u8]) -> Result<u32, Refusal>
    ensures { outcome (answer_of result) chips.new ≡ written_checked mode report.now chips.old }
{
    sendable(mode, report)?;
    let mut octets = [0; 127];
    writer::try_write(mode, with_fcs(report, &mut octets), chips)
}

// The same, with the answer that C has. By the plain `write`, so that the back end has one function
// for both profiles, and puts the plain `try_write` into it: with a call of that its Result went
// through memory, and the plain frame of a short report took up to 1.6 times as long.
pub fn write(mode: u32, report: &[u8], chips: &mut [u8]) -> Written
    ensures { outcome result chips.new ≡ written_checked mode report.now chips.old }
{
    if let Err(why) = sendable(mode, report) {
        return frame::refusal(why.into());
    }
    let mut octets = [0; 127];
    writer::write(mode, with_fcs(report, &mut octets), chips)
}

// That a report goes into a frame with its FCS, or why not.
fn sendable(mode: u32, report: &[u8]) -> Result<(), Refusal>
    ensures { MatchResult result
        (λ _. (length report.now ≤ 125) × ((buffer : List ℕ) → written mode (with_fcs report.now) buffer ≡ written_checked mode report.now buffer))
        (λ why. (buffer : List ℕ) → unwritten (number_of why) buffer ≡ written_checked mode report.now buffer) }
{
    Phy::try_from(mode)?;
    if report.is_empty() {
        return Err(Refusal::TooFew);
    }
    if 125 < report.len() {
        return Err(Refusal::TooLong);
    }
    if all_zero(report) {
        return Err(Refusal::AllZero);
    }
    Ok(())
}

// Reads as the plain reader does, into octets aside with the room that the report buffer has, and
// stores the report once it has passed.
pub fn read(mode: u32, chips: &[u8], report: &mut [u8]) -> reader::Reading
    ensures { outcome result report.new ≡ read_checked_of mode chips.now report.old }
{
    let mut octets = [0; 127];
    let room = report.len().min(127);
    let answer = reader::read(mode, chips, &mut octets[..room]);
    // C's record, with a place beside the number: `reader::read` gives it, and so does this.
    if answer.number != codes::DONE {
        return answer;
    }
    // Octets and how many of them count: so `reader::store` takes them.
    let n = answer.n as usize;
    if let Err(why) = tested(&octets[..n]) {
        return reader::refusal(why.into(), answer.place);
    }
    reader::store(octets, n, report);
    answer
}

// The tests of a report that was read, as C calls them: 14, 15, 16, or 0 where it passes.
pub fn check(octets: &[u8]) -> u32
    ensures { result ≡ check_of octets.now }
{
    match tested(octets) {
        Ok(()) => codes::DONE,
        Err(why) => why.into(),
    }
}

// The same: that it passes, or why not.
#[tactic(auto, unfolding(crate::specs::Profile::check_of))]
fn tested(octets: &[u8]) -> Result<(), Refusal>
    ensures passes { IsOk result ↔ (check_of octets.now ≡ DONE) }
    ensures refused { IfErr result (λ why. check_of octets.now ≡ number_of why) }
{
    if octets.len() < 3 {
        return Err(Refusal::TooFew);
    }
    if !right_fcs(octets) {
        return Err(Refusal::BadCheck);
    }
    if all_zero(octets) {
        return Err(Refusal::AllZero);
    }
    Ok(())
}

// Whether the last two octets are the FCS of those before, the low one first.
fn right_fcs(octets: &[u8]) -> bool
    requires { 2 ≤ length octets.now }
    ensures { result ≡ right_fcs octets.now }
{
    let (body, sent) = octets.split_at(octets.len() - 2);
    u32::from(u16::from_le_bytes([sent[0], sent[1]])) == fcs::by_table(body)
}

// Whether every octet is 0.
fn all_zero(octets: &[u8]) -> bool
    ensures { result ≡ all_zero octets.now }
{
    octets.iter().all(|&octet| octet == 0)
}

// The report's octets and the two of its FCS, the low one first, over the front of octets aside.
// That an FCS fits two octets is `fcs_below`: the register stays below 2^16.
#[tactic(auto, using(fcs::proofs::Remainder::fcs_below))]
fn with_fcs<'a>(report: &[u8], octets: &'a mut [u8; 127]) -> &'a [u8]
    requires { length report.now ≤ 125 }
    ensures { result.now ≡ with_fcs report.now }
{
    let n = report.len();
    let sequence = fcs::by_table(report) as u16;
    octets[..n].copy_from_slice(report);
    octets[n..n + 2].copy_from_slice(&sequence.to_le_bytes());
    &octets[..n + 2]
}
