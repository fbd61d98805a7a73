// Mode 0: fifteen chips gathered as two eights, chips 0 to 7 in bit 0 of the bytes and 7 to 14 in
// bit 4. Exclusive or with word 0, gathered likewise, leaves a bit for each chip that differs, and
// digits of at most 2 carry nothing when they are summed (`codes`, proofs/Packed.antt, and
// proofs/Bits.antt).
ghost use Rattle.std.specs.Prelude.{◌≡◌, ◌≤◌};
ghost use Rattle.codes.specs.Chips.{distance};
ghost use Rattle.codes.specs.Radio.{word, bpsk};
ghost use Rattle.codes.specs.Packed.{digit_sum};
ghost use Rattle.codes.specs.Gathered.{layout_of, chip_in, listed};
ghost use Rattle.codes.specs.Near.{nearest_in};

// The two words differ in all fifteen chips, so the distance from the word for 1 is what is left of
// fifteen, and the nearer word is that for 0 up to seven; the next-nearest is the other. Four bits
// inverted are what is left of fifteen; a branch on which word it is would be a guess at every
// symbol. All in one value, as `nearest` of lib.rt promises it (`nearest_in`).
pub fn nearest(bits: u64) -> u32
    ensures { result ≡ nearest_in 0 bits }
{
    let d = apart(bits);
    let value = d / 8;
    let near = d ^ (value * 15);
    (15 - near) * 1024 + near * 16 + value
}

// The distance from the word for 0. Chip 7 is in both eights, and left out of the second.
fn apart(bits: u64) -> u32
    ensures { (result ≡ distance (listed (chip_in (layout_of bpsk) bits) 15) (word bpsk 0)) × (result ≤ 15) }
{
    let wrong = bits ^ codes::BPSK.word;
    digit_sum((wrong & 0x0101010101010101) + (wrong & 0x1010101010101000) / 16)
}

// The sum of eight digits, where it is below 256. The halves are added first, so that the product
// fits: its fourth digit is the sum of four. The cast fits, below 256, where `TryFrom` has an error
// that can't be.
fn digit_sum(z: u64) -> u32
    ensures { result ≡ digit_sum z }
{
    ((z % 0x100000000 + z / 0x100000000) * 0x01010101 / 0x1000000 % 256) as u32
}
