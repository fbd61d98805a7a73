// The functions that C calls, with the names, parameters and structs of include/lernazhup.h. Each
// is one call of a function below it and promises what that one does, so there is nothing more to
// prove. The structs are those of `codes`, `frame`, `reader` and `receiver`, laid out as C lays
// them out.
#![tactic(auto)]

ghost use Rattle.std.specs.Prelude.{◌≡◌};
ghost use Rattle.codes.specs.Symbol.{match_of};
ghost use Rattle.frame.specs.Outcome.{outcome};
ghost use Rattle.frame.specs.Write.{written};
ghost use Rattle.reader.specs.Read.{read_of};
ghost use Rattle.receiver.specs.Record.{start_of, push_of, finish_of, take_of};
ghost use Rattle.fcs.specs.Fcs.{fcs_of};
ghost use Rattle.checked.specs.Profile.{check_of, read_checked_of, written_checked};

// A report to a frame's chips.
#[unsafe(no_mangle)]
pub extern "C" fn lernazhup_write(mode: u32, report: &[u8], chips: &mut [u8]) -> frame::Written
    ensures { outcome result chips.new ≡ written mode report.now chips.old }
{
    writer::write(mode, report, chips)
}

// A frame's chips to the report.
#[unsafe(no_mangle)]
pub extern "C" fn lernazhup_read(mode: u32, chips: &[u8], report: &mut [u8]) -> reader::Reading
    ensures { outcome result report.new ≡ read_of mode chips.now report.old }
{
    reader::read(mode, chips, report)
}

// One symbol's chips to the nearest word and both distances.
#[unsafe(no_mangle)]
pub extern "C" fn lernazhup_match(mode: u32, part: &[u8]) -> codes::Symbol
    ensures { result ≡ match_of mode part.now }
{
    matching::match_part(mode, part)
}

// A record for a mode.
#[unsafe(no_mangle)]
pub extern "C" fn lernazhup_start(mode: u32) -> receiver::Step
    ensures { result ≡ start_of mode }
{
    receiver::Receiver::start(mode)
}

// One symbol's chips.
#[unsafe(no_mangle)]
pub extern "C" fn lernazhup_push(receiver: receiver::Receiver, part: &[u8]) -> receiver::Step
    ensures { result ≡ push_of receiver part.now }
{
    receiver.push(part)
}

// No more symbols.
#[unsafe(no_mangle)]
pub extern "C" fn lernazhup_finish(receiver: receiver::Receiver) -> receiver::Step
    ensures { result ≡ finish_of receiver }
{
    receiver.finish()
}

// What the record has come to.
#[unsafe(no_mangle)]
pub extern "C" fn lernazhup_take(receiver: receiver::Receiver, report: &mut [u8]) -> reader::Reading
    ensures { outcome result report.new ≡ take_of receiver report.old }
{
    receiver.take(report)
}

// The FCS of octets, by the table.
#[unsafe(no_mangle)]
pub extern "C" fn lernazhup_fcs(octets: &[u8]) -> u32
    ensures { result ≡ fcs_of octets.now }
{
    fcs::by_table(octets)
}

// The FCS of octets, bit by bit.
#[unsafe(no_mangle)]
pub extern "C" fn lernazhup_fcs_bitwise(octets: &[u8]) -> u32
    ensures { result ≡ fcs_of octets.now }
{
    fcs::bitwise(octets)
}

// The checked profile's tests of a report.
#[unsafe(no_mangle)]
pub extern "C" fn lernazhup_check(octets: &[u8]) -> u32
    ensures { result ≡ check_of octets.now }
{
    checked::check(octets)
}

// A report to the chips of the frame that ends in its FCS.
#[unsafe(no_mangle)]
pub extern "C" fn lernazhup_write_checked(
    mode: u32,
    report: &[u8],
    chips: &mut [u8],
) -> frame::Written
    ensures { outcome result chips.new ≡ written_checked mode report.now chips.old }
{
    checked::write(mode, report, chips)
}

// A frame's chips to the report, where its FCS is right and not every octet is 0.
#[unsafe(no_mangle)]
pub extern "C" fn lernazhup_read_checked(
    mode: u32,
    chips: &[u8],
    report: &mut [u8],
) -> reader::Reading
    ensures { outcome result report.new ≡ read_checked_of mode chips.now report.old }
{
    checked::read(mode, chips, report)
}
