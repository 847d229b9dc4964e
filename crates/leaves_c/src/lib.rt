// The leaves as functions on numbers and byte slices, as C takes them (leaf_exports), for comparison with the Rust and for the benchmark.
#![tactic(auto)]

ghost use Rattle.std.specs.Prelude.{◌≡◌};
ghost use Rattle.leaves_c.specs.Leaves.{lengths_number, ack_seq_num_number, is_valid_of, addressing_fields_lengths_of, for_us_of, ack_seq_num_of_frame, is_ack_for_of, from_mpdu_length_of};

use addressing::AddressingFieldsLengths;
use frame_control::FrameControl;

#[tactic(auto, unfolding(crate::specs::Leaves::lengths_number))]
fn lengths_number(l: AddressingFieldsLengths) -> u32
    ensures { result ≡ lengths_number l }
{
    u32::from_le_bytes([l.dst_pan_id, l.dst_address, l.src_pan_id, l.src_address])
}

// A sequence number, or 256 for none. It is alike pan_id of leaf_vectors by chance: another width, another number.
#[tactic(auto, unfolding(crate::specs::Leaves::ack_seq_num_number))]
fn ack_seq_num_number(n: Option<u8>) -> u16
    ensures { result ≡ ack_seq_num_number n }
{
    n.map_or(256, u16::from)
}

// Whether a frame control is well formed: 1 or 0.
pub fn widosha_is_valid(control: u16) -> u8
    ensures { result ≡ is_valid_of control }
{
    u8::from(FrameControl::from(control).is_valid())
}

// The lengths of destination PAN, destination, source PAN and source, one byte each, the first in the lowest byte.
pub fn widosha_addressing_fields_lengths(control: u16) -> u32
    ensures { result ≡ addressing_fields_lengths_of control }
{
    lengths_number(addressing::addressing_fields_lengths(FrameControl::from(control)))
}

// Whether the arrived bytes of a frame say that it is for the station with these settings: 1 or 0. Implicit broadcast is off
// at 0 and on at every other number.
pub fn widosha_is_frame_valid_and_for_us(frame: &[u8], hardware: u64, pan: u16, implicit: u8) -> u8
    ensures { result ≡ for_us_of frame.now hardware pan implicit }
{
    let info = header::preliminary_frame_info(frame);
    u8::from(filter::is_frame_valid_and_for_us(hardware, pan, implicit != 0, info))
}

// The number with which a frame wants an acknowledgement, or 256 where it wants none.
pub fn widosha_ack_seq_num(frame: &[u8]) -> u16
    ensures { result ≡ ack_seq_num_of_frame frame.now }
{
    ack_seq_num_number(radio_frame::ack_seq_num(frame))
}

// Whether a received frame of a length without checksum acknowledges a number: 1 or 0.
pub fn widosha_is_ack_for(frame: &[u8], length: u16, number: u8) -> u8
    ensures { result ≡ is_ack_for_of frame.now length number }
{
    u8::from(ack::is_ack_for(frame, length, number))
}

// The spacing after a frame of a length with checksum: 1 short, 2 long.
pub fn widosha_from_mpdu_length(length: u16) -> u8
    ensures { result ≡ from_mpdu_length_of length }
{
    u8::from(phy::from_mpdu_length(length))
}
