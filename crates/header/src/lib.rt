// What the arrived bytes of a frame say of it (PreliminaryFrameInfo of tasks.rs).
#![tactic(auto)]

ghost use Rattle.std.specs.Prelude.{◌≡◌, ◌+◌, ◌<◌, ◌≤◌, length, MatchOption};
ghost use Rattle.util.specs.Bytes.{number_at};
ghost use Rattle.header.specs.Header.{frame_control_fact, address_fact, addressing_begin, control_alone, numbered_info, info_of};
ghost use Rattle.header.specs.Steps.{number_step, pan_id_found, unread_address, inherited_pan_id, before_gap};

use frame_control::AddressingMode::{self, Absent, Extended, Short, Unknown};
use frame_control::FrameControl;

// An address, as the number that its bytes give, low byte first.
#[derive(Clone, Copy)]
pub enum Address {
    Absent,
    Short(u16),
    Extended(u64),
}

// The addressing fields of a header.
#[derive(Clone, Copy)]
pub struct AddressingFields {
    pub dst_pan_id: Option<u16>,
    pub dst_address: Address,
}

// The facts of a header.
#[derive(Clone, Copy, Default)]
pub struct PreliminaryFrameInfo {
    pub frame_control: Option<FrameControl>,
    pub seq_nr: Option<u8>,
    pub addressing_fields: Option<AddressingFields>,
    pub src_pan_id: Option<u16>,
    pub src_address: Option<Address>,
    pub addressing_end: Option<u8>,
}

// The N bytes from a place on, if they have arrived.
#[tactic(auto, using(util::proofs::Numbers::in_place, std::proofs::lemmas::Slice::between_to_end))]
fn bytes_at<const N: usize>(frame: &[u8], at: usize) -> Option<[u8; N]>
    ensures { MatchOption result (length frame.now < at + N) (λ b. (at + N ≤ length frame.now) × (number_at b 0 N ≡ number_at frame.now at N)) }
{
    let bytes = frame.get(at..)?.first_chunk()?;
    Some(*bytes)
}

// The frame control, if both its bytes have arrived.
#[tactic(auto, unfolding(crate::specs::Header::frame_control_fact))]
fn control_at(frame: &[u8]) -> Option<FrameControl>
    ensures { result ≡ frame_control_fact frame.now }
{
    match frame {
        [low, high, ..] => Some(frame_control::frame_control(*low, *high)),
        _ => None,
    }
}

// The sequence number and the place after it: a suppressed number has no byte.
#[tactic(auto, unfolding(crate::specs::Steps::number_step))]
fn number_at(frame: &[u8], suppressed: bool) -> Option<(Option<u8>, usize)>
    ensures { result ≡ number_step frame.now suppressed }
{
    if suppressed {
        return Some((None, 2));
    }
    Some((Some(*frame.get(2)?), 3))
}

// A PAN id of the given length, 0 or 2, if its bytes have arrived.
#[tactic(auto, unfolding(crate::specs::Steps::pan_id_found, crate::specs::Header::pan_id_of, util::specs::Bytes::number_at))]
fn pan_id_at(frame: &[u8], at: usize, len: u8) -> Option<Option<u16>>
    ensures { result ≡ pan_id_found frame.now at len }
{
    if len == 0 {
        return Some(None);
    }
    Some(Some(u16::from_le_bytes(bytes_at(frame, at)?)))
}

// An address of the given mode, if its bytes have arrived.
#[tactic(auto, unfolding(crate::specs::Header::address_fact, crate::specs::Header::address_of, util::specs::Bytes::number_at))]
fn address_at(frame: &[u8], at: usize, mode: AddressingMode) -> Option<Address>
    ensures { result ≡ address_fact frame.now at mode }
{
    Some(match mode {
        Absent | Unknown => Address::Absent,
        Short => Address::Short(u16::from_le_bytes(bytes_at(frame, at)?)),
        Extended => Address::Extended(u64::from_le_bytes(bytes_at(frame, at)?)),
    })
}

// The source address where the reading ends before it: an absent one has no bytes, so that it is there all the same.
#[tactic(auto, unfolding(crate::specs::Steps::unread_address))]
fn unread_address(mode: AddressingMode) -> Option<Address>
    ensures { result ≡ unread_address mode }
{
    match mode {
        Absent | Unknown => Some(Address::Absent),
        Short | Extended => None,
    }
}

// The source PAN id as far as the destination's says: a source without its own has that. The lengths are those of the source.
#[tactic(auto, unfolding(crate::specs::Steps::inherited_pan_id))]
fn inherited_pan_id(own_len: u8, address_len: u8, dst_pan_id: Option<u16>) -> Option<u16>
    ensures { result ≡ inherited_pan_id own_len address_len dst_pan_id }
{
    dst_pan_id.filter(|_| own_len == 0 && 0 < address_len)
}

fn control_alone(frame_control: Option<FrameControl>) -> PreliminaryFrameInfo
    ensures { result ≡ control_alone frame_control }
{
    PreliminaryFrameInfo {
        frame_control,
        ..Default::default()
    }
}

// The facts before a gap in the address fields.
fn before_gap(
    fc: FrameControl,
    seq_nr: Option<u8>,
    src_pan_id: Option<u16>,
    src_address: Option<Address>,
) -> PreliminaryFrameInfo
    ensures { result ≡ before_gap fc seq_nr src_pan_id src_address }
{
    PreliminaryFrameInfo {
        seq_nr,
        src_pan_id,
        src_address,
        ..control_alone(Some(fc))
    }
}

// The facts with those of the address fields, each field taken apart in its turn: one that is missing ends the reading with the
// facts so far.
#[tactic(auto, using(crate::proofs::Fields::bounded, crate::proofs::Fields::first_gap, crate::proofs::Fields::second_gap, crate::proofs::Fields::third_gap, crate::proofs::Fields::fourth_gap, crate::proofs::Fields::whole))]
fn numbered_info(
    frame: &[u8],
    fc: FrameControl,
    seq_nr: Option<u8>,
    at: usize,
) -> PreliminaryFrameInfo
    requires { (at < 4) × (at ≡ addressing_begin fc) × (at ≤ length frame.now) }
    ensures { result ≡ numbered_info frame.now fc seq_nr }
{
    let lengths = addressing::addressing_fields_lengths(fc);
    let unread = unread_address(fc.src_addressing_mode);
    let Some(dst_pan_id) = pan_id_at(frame, at, lengths.dst_pan_id) else {
        return before_gap(fc, seq_nr, None, unread);
    };
    let inherited = inherited_pan_id(lengths.src_pan_id, lengths.src_address, dst_pan_id);
    let dst_at = at + usize::from(lengths.dst_pan_id);
    let Some(dst_address) = address_at(frame, dst_at, fc.dst_addressing_mode) else {
        return before_gap(fc, seq_nr, inherited, unread);
    };
    let src_pan_id_at = dst_at + usize::from(lengths.dst_address);
    let Some(own) = pan_id_at(frame, src_pan_id_at, lengths.src_pan_id) else {
        return before_gap(fc, seq_nr, inherited, unread);
    };
    let src_pan_id = own.or(inherited);
    let src_at = src_pan_id_at + usize::from(lengths.src_pan_id);
    let Some(src_address) = address_at(frame, src_at, fc.src_addressing_mode) else {
        return before_gap(fc, seq_nr, src_pan_id, None);
    };
    let end = src_at + usize::from(lengths.src_address);
    PreliminaryFrameInfo {
        frame_control: Some(fc),
        seq_nr,
        addressing_fields: Some(AddressingFields {
            dst_pan_id,
            dst_address,
        }),
        src_pan_id,
        src_address: Some(src_address),
        addressing_end: Some(end as u8),
    }
}

// The facts that the arrived bytes of a frame give; reading that stops early answers with the facts before the gap.
#[tactic(auto, unfolding(crate::specs::Header::info_of, crate::specs::Header::after_control), using(crate::proofs::Fields::number_gap, crate::proofs::Fields::number_there, crate::proofs::Fields::control_there))]
pub fn preliminary_frame_info(frame: &[u8]) -> PreliminaryFrameInfo
    ensures { result ≡ info_of frame.now }
{
    let Some(fc) = control_at(frame) else {
        return control_alone(None);
    };
    if !fc.is_valid() {
        return control_alone(Some(fc));
    }
    let Some((seq_nr, at)) = number_at(frame, fc.sequence_number_suppression) else {
        return before_gap(fc, None, None, unread_address(fc.src_addressing_mode));
    };
    numbered_info(frame, fc, seq_nr, at)
}
