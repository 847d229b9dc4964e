// The answers of the leaves as numbers, where leaves_c has none.
use frame_control::FrameControl;
use header::{Address, PreliminaryFrameInfo};
use radio_frame::{Range, Settings};
use refusals::Refusal;

// Every named field of control, put back to its place.
pub fn fields(fc: FrameControl) -> u64 {
    u64::from(fc.frame_type)
        | u64::from(fc.security_enabled) << 3
        | u64::from(fc.frame_pending) << 4
        | u64::from(fc.ack_request) << 5
        | u64::from(fc.pan_id_compression) << 6
        | u64::from(fc.sequence_number_suppression) << 8
        | u64::from(fc.information_elements_present) << 9
        | (fc.dst_addressing_mode as u64) << 10
        | u64::from(fc.frame_version) << 12
        | (fc.src_addressing_mode as u64) << 14
}

// The bytes of the header up to the end of the addresses. Written out: with a fold over the four lengths the goal of its overflow stays
// open.
pub fn header_length(fc: FrameControl) -> u64 {
    let l = addressing::addressing_fields_lengths(fc);
    let number = u64::from(!fc.sequence_number_suppression);
    let dst = u64::from(l.dst_pan_id) + u64::from(l.dst_address);
    let src = u64::from(l.src_pan_id) + u64::from(l.src_address);
    2 + number + dst + src
}

// The destination PAN; 65536 where it is omitted. It is alike ack_seq_num_number of leaves_c by chance: another width, another number.
fn pan_id(id: Option<u16>) -> u64 {
    id.map_or(65536, u64::from)
}

// How many bytes an address has, and the number in them.
fn address_length(a: Address) -> u64 {
    match a {
        Address::Absent => 0,
        Address::Short(_) => 2,
        Address::Extended(_) => 8,
    }
}

fn address_number(a: Address) -> u64 {
    match a {
        Address::Absent => 0,
        Address::Short(n) => n.into(),
        Address::Extended(n) => n,
    }
}

// The fact of a header that a kind of question asks for; none where it is missing, or where there is no such kind.
pub fn fact(kind: u8, info: PreliminaryFrameInfo) -> Option<u64> {
    Some(match kind {
        b's' => info.seq_nr?.into(),
        b'p' => pan_id(info.addressing_fields?.dst_pan_id),
        b'm' => address_length(info.addressing_fields?.dst_address),
        b'd' => address_number(info.addressing_fields?.dst_address),
        b'q' => info.src_pan_id?.into(),
        b'n' => address_length(info.src_address?),
        b'o' => address_number(info.src_address?),
        b'e' => info.addressing_end?.into(),
        _ => return None,
    })
}

// The latest start of an acknowledgement, or document 01's refusal number.
pub fn latest(l: Option<u64>) -> u64 {
    l.unwrap_or(u8::from(Refusal::LatestAckStart).into())
}

// What eight bytes hold once the acknowledgement with a number was written among them, from a place on.
pub fn ack_written(frame: &[u8], begin: u16, number: u8) -> u64 {
    let mut pool = util::u64_at(frame, 0).to_le_bytes();
    ack::imm_ack_frame(&mut pool, begin.into());
    ack::set_sequence_number(&mut pool, begin.into(), number);
    u64::from_le_bytes(pool)
}

// Headroom, tailroom and checksum length are the three low bytes of a number.
fn unpacked(packed: u64) -> Settings {
    let [headroom, tailroom, fcs_length, ..] = packed.to_le_bytes();
    Settings {
        count: 3,
        headroom,
        tailroom,
        fcs_length,
        spare_buffer: 1,
        ..Settings::default()
    }
}

// The lengths of headroom, frame, checksum and tailroom of buffer 0, 16 bits each, the headroom's highest; none where one of
// them does not begin where the one before it ends.
pub fn ranges(packed: u64, length: u16) -> Option<u64> {
    let f = radio_frame::radio_frame(unpacked(packed), 0, length);
    let mut sum = 0;
    let mut at = 0;
    for Range { start, end } in [f.headroom, f.sdu, f.fcs, f.tailroom] {
        if start != at {
            return None;
        }
        sum = sum << 16 | u64::from(end.wrapping_sub(start) & 0xffff);
        at = end;
    }
    Some(sum)
}
