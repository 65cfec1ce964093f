// Little-endian numbers and doubles in a byte slice. A function for each width: std has the bytes of each
// type of number, and no trait over them.
#![tactic(auto)]

ghost use Rattle.std.specs.Prelude.{◌≡◌, ◌+◌, ◌/◌, ◌≤◌, length};
ghost use Rattle.std.proofs.lemmas.List.Edits.{sets};
ghost use Rattle.codec.specs.Little.{little, double_at, bytes_of};

// The four bytes from `at` on, the lowest first.
#[tactic(auto, using(crate::proofs::Bytes::four))]
pub fn read_u32(s: &[u8], at: usize) -> u32
    requires { at + 4 ≤ length s.now }
    ensures { result ≡ little 4 s.now at }
{
    u32::from_le_bytes(s[at..at + 4].try_into().unwrap())
}

// The eight bytes from `at` on, the lowest first; the upper half of the number is that of the bytes.
#[tactic(auto, using(crate::proofs::Bytes::eight, crate::proofs::Bytes::upper_half))]
pub fn read_u64(s: &[u8], at: usize) -> u64
    requires { at + 8 ≤ length s.now }
    ensures { (result ≡ little 8 s.now at) × (result / 0x1_0000_0000 ≡ little 4 s.now (at + 4)) }
{
    u64::from_le_bytes(s[at..at + 8].try_into().unwrap())
}

// The double whose bits are the eight bytes from `at` on.
pub fn read_f64(s: &[u8], at: usize) -> f64
    requires { at + 8 ≤ length s.now }
    ensures { result ≡ double_at s.now at }
{
    float::of_bits(read_u64(s, at))
}

// Stores the four bytes of x from `at` on, the lowest first. `at` says where to store: a caller that cut the
// slice first would prove the same bound.
#[tactic(auto, using(crate::proofs::Stores::four_stored))]
pub fn put_u32(out: &mut [u8], at: usize, x: u32)
    requires { at + 4 ≤ length out.old }
    ensures { out.new ≡ sets out.old at (bytes_of 4 x) }
{
    out[at..at + 4].copy_from_slice(&x.to_le_bytes());
}

// Stores the eight bytes of x from `at` on, the lowest first.
#[tactic(auto, using(crate::proofs::Stores::eight_stored))]
pub fn put_u64(out: &mut [u8], at: usize, x: u64)
    requires { at + 8 ≤ length out.old }
    ensures { out.new ≡ sets out.old at (bytes_of 8 x) }
{
    out[at..at + 8].copy_from_slice(&x.to_le_bytes());
}
