// The 16-bit FCS of IEEE 802.15.4: working it out by a table, or of few bytes by shifts, and the check of a frame with its checksum
// (request E5).
#![tactic(auto)]

mod table;

ghost use Rattle.std.specs.Prelude.{◌≡◌, ◌<◌, [], ◌∷◌, length};
ghost use Rattle.fcs.specs.Fcs.{bits_of, divide_once, fcs_from, fcs_of};
ghost use Rattle.fcs.specs.Check.{check_number, FcsChecked};

use refusals::Refusal;
use table::fcs_table;

// From so many bytes on they go by the table, as request E5 asks; fewer go by shifts, in less time (docs/BENCHMARKS.md).
const BY_TABLE_FROM: usize = 96;

// The checksum of any bytes, also of none: of an odd first byte, and then of the others two by two. Each way is a `for`: with `fold`
// the check of 5 bytes took a quarter more time.
#[tactic(auto, using(crate::proofs::Pairs::odd_and_pairs))]
pub fn fcs(bytes: &[u8]) -> u16
    ensures { result ≡ fcs_of bytes.now }
{
    let (odd, pairs) = bytes.as_rchunks();
    let mut register = before_pairs(odd);
    if bytes.len() < BY_TABLE_FROM {
        for pair in pairs {
            register = two_by_shifts(register, pair);
        }
    } else {
        for pair in pairs {
            register = two_by_table(register, *pair);
        }
    }
    register
}

// The checksum of one byte, without the table, or of none.
#[tactic(auto, using(crate::proofs::Pairs::one_byte, crate::proofs::Pairs::no_byte))]
fn before_pairs(odd: &[u8]) -> u16
    requires { length odd.now < 2 }
    ensures { result ≡ fcs_of odd.now }
{
    match odd.first() {
        Some(byte) => eight_steps(*byte),
        None => 0,
    }
}

// Eight steps of the division at once, for one byte by itself: as in sixteen_steps, with as many bits of the quotient as the byte has.
#[tactic(auto, using(crate::proofs::Shifts::byte_alone))]
fn eight_steps(byte: u8) -> u16
    ensures { result ≡ fcs_of (byte ∷ []) }
{
    let quotient = u16::from(byte ^ (byte << 4));
    (quotient << 8) ^ (quotient << 3) ^ (quotient >> 4)
}

// Two bytes more by the table: the first goes with the register's low byte, the second with its high byte and the entry of the first.
// The pair comes by value: by reference the loop has two instructions more.
#[tactic(auto, using(crate::proofs::Pairs::pair_by_table))]
fn two_by_table(register: u16, pair: [u8; 2]) -> u16
    ensures { result ≡ fcs_from register pair }
{
    let [first, second] = pair;
    let [low, high] = register.to_le_bytes();
    let [entry_low, entry_high] = fcs_table()[usize::from(low ^ first)].to_le_bytes();
    u16::from(entry_high) ^ fcs_table()[usize::from(entry_low ^ high ^ second)]
}

// Two bytes more without the table. The pair comes by reference, of which the search knows that it has two bytes.
#[tactic(auto, using(crate::proofs::Shifts::word_step))]
fn two_by_shifts(register: u16, pair: &[u8; 2]) -> u16
    ensures { result ≡ fcs_from register pair.now }
{
    sixteen_steps(register ^ u16::from_le_bytes(*pair))
}

// Sixteen steps of the division at once, with no bits after those of the word. A bit of the quotient is the word's, changed by the
// quotient's bits 4 and 11 places before it, since the terms 12 and 5 are so far below the term 16; written out, by the word's bits 4,
// 8, 12 and 11 places before it. What is left is what the quotient has changed beyond the word by the terms 0, 5 and 12.
#[tactic(auto, using(crate::proofs::Shifts::two_zeros))]
fn sixteen_steps(word: u16) -> u16
    ensures { result ≡ fcs_from word (0 ∷ 0 ∷ []) }
{
    let four = word ^ (word << 4);
    let quotient = four ^ (four << 8) ^ (word << 11);
    quotient ^ (quotient >> 5) ^ (quotient >> 12)
}

// The table's entry for a byte, by the bit rule: the table is not looked at.
#[tactic(auto, using(crate::proofs::Entry::entry_start, crate::proofs::Entry::turn, crate::proofs::Entry::ended))]
pub fn entry_by_bits(byte: u8) -> u16
    ensures { result ≡ fcs_of (byte ∷ []) }
{
    let mut register = u16::from(byte);
    for _ in 0..u8::BITS {
        register = divided_once(register);
    }
    register
}

// One step of the division, the bits lowest first: 8408 is the polynomial below its highest power.
#[tactic(auto, using(crate::proofs::Entry::odd_step, std::proofs::lemmas::Bool::Decides::nat_tests))]
fn divided_once(register: u16) -> u16
    ensures { bits_of 16 result ≡ divide_once (bits_of 17 register) }
{
    let half = register / 2;
    if register % 2 == 1 {
        half ^ 0x8408
    } else {
        half
    }
}

// Whether the last two bytes of a frame are the checksum of the rest.
#[tactic(auto, using(crate::proofs::Check::answered, crate::proofs::Check::answered_refused))]
pub fn check_fcs(frame: &[u8]) -> Result<bool, Refusal>
    ensures { FcsChecked frame.now result }
{
    match frame.split_last_chunk() {
        Some((rest, last)) if 3 <= frame.len() && frame.len() <= 127 => {
            Ok(fcs(rest) == u16::from_le_bytes(*last))
        }
        _ => Err(Refusal::FrameLength),
    }
}

// The number of an answer in the exported form. It is no enum with From: the cases are those of a Result<bool, Refusal>, and a refusal's
// own number comes by From already; so it stays a match.
pub fn check_number(answer: Result<bool, Refusal>) -> u8
    ensures { result ≡ check_number answer }
{
    match answer {
        Ok(true) => 0,
        Ok(false) => 255,
        Err(refusal) => refusal.into(),
    }
}
