// What every layer uses: definitions over lists and numbers (specs/) with their laws (proofs/), the blank arrays that columns are
// filled from, and a few small functions.
#![tactic(auto)]

ghost use Rattle.std.specs.Prelude.{◌≡◌, ◌+◌, ◌≤◌, min, length};
ghost use Rattle.std.proofs.lemmas.List.Edits.{sets};
ghost use Rattle.lists.specs.Tab.{blank as blank_lem};

// N places with x at each: 64, one for each row that a table can have, 17, one for each resource or processor at its number, and so on.
#[tactic(auto, unfolding(crate::specs::Tab::blank))]
pub fn blank<const N: usize>(x: u32) -> [u32; N]
    ensures { result ≡ blank_lem N x }
{
    [x; N]
}

// The smaller of two numbers: u32::min under a name of its own, since the theorem first_for_smaller speaks of it.
pub fn smaller(x: u32, y: u32) -> u32
    ensures { result ≡ min x y }
{
    x.min(y)
}

// Stores bytes from place at of a buffer on.
pub fn store(out: &mut [u8], at: usize, bytes: &[u8])
    requires { at + length bytes.now ≤ length out.old }
    ensures { out.new ≡ sets out.old at bytes.now }
{
    // no copy_from_slice: it is memmove, which the archive would need of the C library beside memcpy and memset
    for (k, byte) in bytes.iter().enumerate() {
        out[at + k] = *byte;
    }
}
