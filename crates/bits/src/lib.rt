// Bit fields of a list of bytes, the most significant bit first, taken out of whole bytes.
#![tactic(auto)]

ghost use Rattle.std.specs.Prelude.{◌≡◌, ◌+◌, ◌*◌, ◌<◌, ◌≤◌, ◌^◌, length};
ghost use Rattle.bits.specs.Bits.{bits_value};

// The value of the bits of count bytes, from byte at on. Each byte is loaded once. No from_be_bytes: a word has 1 to 5 bytes.
pub fn word(bytes: &[u8], at: usize, count: usize) -> u64
    requires { (at + count ≤ length bytes.now) × (count ≤ 8) }
    ensures { (result ≡ bits_value bytes.now (8 * at) (8 * count)) × (result < 2 ^ (8 * count)) }
{
    let mut r: u64 = 0;
    for byte in &bytes[at..at + count] {
        r = r * 256 + u64::from(*byte);
    }
    r
}

// The value of the width bits from place at on.
pub fn field(bytes: &[u8], at: usize, width: usize) -> u32
    requires { (at + width ≤ 8 * length bytes.now) × (width ≤ 20) × (at ≤ 65536) }
    ensures { (result ≡ bits_value bytes.now at width) × (result < 2 ^ width) }
{
    let first = at / 8;
    let end = (at + width + 7) / 8;
    let w = word(bytes, first, end - first);
    let behind = 8 * end - (at + width);
    let size: u64 = 1 << width;
    ((w >> behind) % size) as u32
}
