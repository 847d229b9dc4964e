// The leaves as C functions on numbers and byte slices: each is the function of leaves_c of its name, with that function's clauses. (Two
// crates, as a static library is no library for leaf_vectors.)
#![tactic(auto)]

ghost use Rattle.std.specs.Prelude.{◌≡◌};
ghost use Rattle.leaves_c.specs.Leaves.{is_valid_of, addressing_fields_lengths_of, for_us_of, ack_seq_num_of_frame, is_ack_for_of, from_mpdu_length_of};

// Whether a frame control is well formed: 1 or 0.
#[unsafe(no_mangle)]
pub extern "C" fn widosha_is_valid(control: u16) -> u8
    ensures { result ≡ is_valid_of control }
{
    leaves_c::widosha_is_valid(control)
}

// The lengths of destination PAN, destination, source PAN and source, one byte each, the first in the lowest byte.
#[unsafe(no_mangle)]
pub extern "C" fn widosha_addressing_fields_lengths(control: u16) -> u32
    ensures { result ≡ addressing_fields_lengths_of control }
{
    leaves_c::widosha_addressing_fields_lengths(control)
}

// Whether the arrived bytes of a frame say that it is for the station with these settings: 1 or 0. Implicit broadcast is off
// at 0 and on at every other number.
#[unsafe(no_mangle)]
pub extern "C" fn widosha_is_frame_valid_and_for_us(
    frame: &[u8],
    hardware: u64,
    pan: u16,
    implicit: u8,
) -> u8
    ensures { result ≡ for_us_of frame.now hardware pan implicit }
{
    leaves_c::widosha_is_frame_valid_and_for_us(frame, hardware, pan, implicit)
}

// The number with which a frame wants an acknowledgement, or 256 where it wants none.
#[unsafe(no_mangle)]
pub extern "C" fn widosha_ack_seq_num(frame: &[u8]) -> u16
    ensures { result ≡ ack_seq_num_of_frame frame.now }
{
    leaves_c::widosha_ack_seq_num(frame)
}

// Whether a received frame of a length without checksum acknowledges a number: 1 or 0.
#[unsafe(no_mangle)]
pub extern "C" fn widosha_is_ack_for(frame: &[u8], length: u16, number: u8) -> u8
    ensures { result ≡ is_ack_for_of frame.now length number }
{
    leaves_c::widosha_is_ack_for(frame, length, number)
}

// The spacing after a frame of a length with checksum: 1 short, 2 long.
#[unsafe(no_mangle)]
pub extern "C" fn widosha_from_mpdu_length(length: u16) -> u8
    ensures { result ≡ from_mpdu_length_of length }
{
    leaves_c::widosha_from_mpdu_length(length)
}
