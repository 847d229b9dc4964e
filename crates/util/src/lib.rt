// Total helpers: reading and writing a byte slice at any place, inside it or not.
#![tactic(auto)]

ghost use Rattle.std.specs.Prelude.{◌≡◌, get_or, set, take, drop};
ghost use Rattle.util.specs.Bytes.{stored_over, number_at};

// The byte at a place, and 0 past the end.
pub fn byte_at(s: &[u8], at: usize) -> u8
    ensures { result ≡ get_or s.now at 0 }
{
    s.get(at).copied().unwrap_or(0)
}

// Writes a byte at a place, and nothing past the end. A test, since the clause of `get_mut` does not say that the other bytes stay.
#[tactic(auto, using(std::proofs::lemmas::List::set_past))]
pub fn put(s: &mut [u8], at: usize, v: u8)
    ensures { s.new ≡ set s.old at v }
{
    if at < s.len() {
        s[at] = v;
    }
}

// Writes src over dst, where the two are as long.
#[tactic(auto, unfolding(crate::specs::Bytes::stored_over))]
pub fn store(src: &[u8], dst: &mut [u8])
    ensures { dst.new ≡ stored_over src.now dst.old }
{
    if src.len() == dst.len() {
        dst.copy_from_slice(src);
    }
}

// Up to n bytes from a place on: those of them that the slice has.
pub fn part(s: &[u8], at: usize, n: usize) -> &[u8]
    ensures { result.now ≡ take n (drop at s.now) }
{
    let rest = &s[at.min(s.len())..];
    &rest[..n.min(rest.len())]
}

// The N bytes from a place on; a byte past the end reads as 0. (Header's function of this name gives none where one is missing.)
#[tactic(auto, using(crate::proofs::Numbers::from_place))]
pub fn bytes_at<const N: usize>(s: &[u8], at: usize) -> [u8; N]
    ensures { number_at result 0 N ≡ number_at s.now at N }
{
    let found = part(s, at, N);
    let mut bytes = [0; N];
    bytes[..found.len()].copy_from_slice(found);
    bytes
}

// The number in the bytes from a place on, the low one first; a byte past the end reads as 0. One function for each width, as std has.
#[tactic(auto, unfolding(crate::specs::Bytes::number_at))]
pub fn u16_at(bytes: &[u8], at: usize) -> u16
    ensures { result ≡ number_at bytes.now at 2 }
{
    u16::from_le_bytes(bytes_at(bytes, at))
}

#[tactic(auto, unfolding(crate::specs::Bytes::number_at))]
pub fn u32_at(bytes: &[u8], at: usize) -> u32
    ensures { result ≡ number_at bytes.now at 4 }
{
    u32::from_le_bytes(bytes_at(bytes, at))
}

#[tactic(auto, unfolding(crate::specs::Bytes::number_at))]
pub fn u64_at(bytes: &[u8], at: usize) -> u64
    ensures { result ≡ number_at bytes.now at 8 }
{
    u64::from_le_bytes(bytes_at(bytes, at))
}
