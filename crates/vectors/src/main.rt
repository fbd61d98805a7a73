// Runs the writer and the reader on what the scope marks "run and compared", and writes six whole
// frames out chip by chip, all to be compared with the file stdout. The chip strings there were
// made of tables 21, 24 and 32 of the draft standard (of table 32 the rows that are printed with 16
// chips; the others by the rule), and the other lines were worked out from the scope's rules:
// neither by this code. What is printed isn't proved but compared; the proofs show that no place
// outside a buffer is used and that each loop ends. The check finds them alone, because an array's
// length is in its type.
#![tactic(auto)]

ghost use Rattle.std.specs.Prelude.{◌≡◌, length};

use reader::Reading;
use std::io;

// The chips of the longest frame. Each program's own number: a public constant would be a line more
// in a library, and none less here.
const LONGEST: usize = 15960;

fn main(rt: HostRuntime) -> io::Result<()> {
    let report = [0x5Au8; 128];
    let mut chips = buffer();
    write_lines(&rt, &report, &mut chips)?;
    read_lines(&rt, &report[..5], &mut chips)?;
    for text in ["", "rope 12 wet"] {
        for mode in 0..3 {
            whole_frame(&rt, mode, text.as_bytes(), &mut chips)?;
        }
    }
    Ok(())
}

// Room for the longest frame, with no chip in it: what the writer leaves alone stays 255. A
// function for its promise: an array made in `main`, one byte too short, no proof would refuse.
fn buffer() -> [u8; LONGEST]
    ensures { 15960 ≡ length result }
{
    [255; LONGEST]
}

// The longest report into just enough room and into a chip less; a longer one; modes that no radio
// has.
fn write_lines(rt: &impl Print, report: &[u8; 128], chips: &mut [u8; LONGEST]) -> io::Result<()> {
    for (mode, room) in [(0, LONGEST), (1, 8512), (2, 4256)] {
        write_line(rt, mode, &report[..127], &mut chips[..room])?;
        write_line(rt, mode, &report[..127], &mut chips[..room - 1])?;
    }
    for mode in 0..3 {
        write_line(rt, mode, report, chips)?;
    }
    for mode in [3, 255, u32::MAX] {
        write_line(rt, mode, &report[..5], chips)?;
    }
    Ok(())
}

// A frame of each mode, read whole; of mode 0 also inverted, of the others also cut by one chip.
fn read_lines(rt: &impl Print, report: &[u8], chips: &mut [u8; LONGEST]) -> io::Result<()> {
    write_line(rt, 0, report, chips)?;
    read_line(rt, 0, &chips[..1320])?;
    invert(chips);
    read_line(rt, 0, &chips[..1320])?;
    for (mode, count) in [(1, 704), (2, 352)] {
        write_line(rt, mode, report, chips)?;
        read_line(rt, mode, &chips[..count])?;
        read_line(rt, mode, &chips[..count - 1])?;
    }
    Ok(())
}

// A report written into the room: prints mode, octets, room, number, chips. Mode and report are
// loose, as the writer and the reader take them: as a struct they would be made for each call.
fn write_line(rt: &impl Print, mode: u32, report: &[u8], chips: &mut [u8]) -> io::Result<()> {
    let (octets, room) = (report.len(), chips.len());
    let written = writer::write(mode, report, chips);
    println!(rt;
        "{mode} {octets} {room} {} {}",
        written.number, written.chips
    )
}

// Chips read with room for 127 octets: prints mode, chips, number, place, n, count, gap, polarity.
fn read_line(rt: &impl Print, mode: u32, chips: &[u8]) -> io::Result<()> {
    let mut report = [0u8; 127];
    let Reading {
        number,
        place,
        n,
        count,
        gap,
        polarity,
    } = reader::read(mode, chips, &mut report);
    println!(rt;
        "{mode} {} {number} {place} {n} {count} {gap} {polarity}",
        chips.len()
    )
}

// The whole frame of a report, a digit a chip.
fn whole_frame(rt: &impl Print, mode: u32, report: &[u8], chips: &mut [u8]) -> io::Result<()> {
    let written = writer::write(mode, report, chips);
    for chip in chips.iter().take(written.chips as usize) {
        print!(rt; "{chip}")?;
    }
    println!(rt)
}

// Every chip the other one. What is no chip stays none.
fn invert(chips: &mut [u8]) {
    for chip in chips.iter_mut() {
        *chip ^= 1;
    }
}
