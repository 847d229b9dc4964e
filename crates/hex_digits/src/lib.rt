// Bytes that are written as pairs of hexadecimal digits.
#![tactic(auto)]

ghost use Rattle.std.specs.Prelude.{◌≡◌, ◌<◌};
ghost use Rattle.hex_digits.specs.Hex.{digit_value, byte_of_pair, bytes_of_digits};

use std::array;

// The value of a hexadecimal digit, '0' to '9' or 'a' to 'f'; a space is 0. Other bytes have one too, and none by std's
// `to_digit`, so that every text is read.
fn digit(c: u8) -> u8
    ensures value { result ≡ digit_value c }
    ensures fits { result < 16 }
{
    if c < 64 { c % 16 } else { (c % 16 + 9) % 16 }
}

// The byte of the pair of digits at a place, and 0 where there is no whole pair.
#[tactic(auto, using(crate::proofs::Pairs::of_pair, crate::proofs::Pairs::no_pair))]
fn byte_of_pair(digits: &[u8], place: usize) -> u8
    ensures { result ≡ byte_of_pair digits.now place }
{
    match digits.as_chunks::<2>().0.get(place) {
        Some([high, low]) => 16 * digit(*high) + digit(*low),
        None => 0,
    }
}

// The bytes that pairs of digits are.
#[tactic(auto, using(crate::proofs::Pairs::made_same))]
pub fn bytes<const N: usize>(digits: &[u8]) -> [u8; N]
    ensures { result ≡ bytes_of_digits N digits.now }
{
    array::from_fn(|i| byte_of_pair(digits, i))
}
