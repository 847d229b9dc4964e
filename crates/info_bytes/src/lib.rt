// The facts of a frame as 32 bytes: docs/LAYOUTS.md.
#![tactic(auto)]

ghost use Rattle.std.specs.Prelude.{◌≡◌};
ghost use Rattle.refusals.specs.Refusals.{number_of};
ghost use Rattle.info_bytes.specs.Info.{address_fields, written_info, InfoCalled};

use header::{Address, AddressingFields};
use refusals::Refusal;

// An address: its mode, as control has it, and its number.
#[derive(Clone, Copy)]
struct AddressFields {
    pub mode: u8,
    pub number: u64,
}

// A function of its definition's name: a From would hide it from its two uses.
#[tactic(auto, unfolding(crate::specs::Info::address_fields))]
fn address_fields(address: Address) -> AddressFields
    ensures { result ≡ address_fields address }
{
    match address {
        Address::Absent => AddressFields { mode: 0, number: 0 },
        Address::Short(a) => AddressFields {
            mode: 2,
            number: u64::from(a),
        },
        Address::Extended(number) => AddressFields { mode: 3, number },
    }
}

// The bytes of the facts of a frame; all bytes of a missing fact are 0. (By `and` and `unwrap_or`: with
// `map_or` and a closure, and with `unwrap_or_default`, the search left the bytes' goal open.)
#[tactic(auto, unfolding(crate::specs::Info::written_info, crate::specs::Info::written_facts), using(crate::proofs::Parts::is_there, crate::proofs::Parts::is_beside, util::proofs::Numbers::le_bytes_8))]
fn encode(frame: &[u8]) -> [u8; 32]
    ensures { result ≡ written_info frame.now }
{
    let info = header::preliminary_frame_info(frame);
    let control = info.frame_control;
    let dst = info.addressing_fields.unwrap_or(AddressingFields {
        dst_pan_id: None,
        dst_address: Address::Absent,
    });
    let dst_address = address_fields(dst.dst_address);
    let src_address = address_fields(info.src_address.unwrap_or(Address::Absent));
    let mut bytes = [0; 32];
    bytes[0] = u8::from(control.is_some());
    bytes[1] = control.and(Some(util::byte_at(frame, 0))).unwrap_or(0);
    bytes[2] = control.and(Some(util::byte_at(frame, 1))).unwrap_or(0);
    bytes[3] = u8::from(info.seq_nr.is_some());
    bytes[4] = info.seq_nr.unwrap_or(0);
    bytes[5] = u8::from(info.addressing_fields.is_some());
    bytes[6] = u8::from(dst.dst_pan_id.is_some());
    bytes[7..9].copy_from_slice(&dst.dst_pan_id.unwrap_or(0).to_le_bytes());
    bytes[9] = dst_address.mode;
    bytes[10..18].copy_from_slice(&dst_address.number.to_le_bytes());
    bytes[18] = u8::from(info.src_pan_id.is_some());
    bytes[19..21].copy_from_slice(&info.src_pan_id.unwrap_or(0).to_le_bytes());
    bytes[21] = u8::from(info.src_address.is_some());
    bytes[22] = src_address.mode;
    bytes[23..31].copy_from_slice(&src_address.number.to_le_bytes());
    bytes[31] = info.addressing_end.unwrap_or(0);
    bytes
}

// Writes the facts that the arrived bytes of a frame give, where the slice for them has 32 bytes; else refusal 1.
#[tactic(auto, unfolding(util::specs::Bytes::stored_over), using(crate::proofs::ReadBack::info_reads_back))]
pub fn preliminary_frame_info(frame: &[u8], info: &mut [u8]) -> Result<(), Refusal>
    ensures { InfoCalled frame.now info.old (number_of result) info.new }
{
    if info.len() != 32 {
        return Err(Refusal::Slices);
    }
    info.copy_from_slice(&encode(frame));
    Ok(())
}
