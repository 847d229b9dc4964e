// Whether a frame is for this station (utils.rs).
#![tactic(auto)]

ghost use Rattle.std.specs.Prelude.{◌≡◌};
ghost use Rattle.filter.specs.Filter.{pan_id_for_us, address_for_us, for_us};

use header::{Address, PreliminaryFrameInfo};

// The destination PAN is omitted, ours or the broadcast PAN.
#[tactic(auto, unfolding(crate::specs::Filter::pan_id_for_us))]
fn is_pan_id_for_us(pan: u16, id: Option<u16>) -> bool
    ensures { result ≡ pan_id_for_us pan id }
{
    id.is_none_or(|id| id == pan || id == 0xFFFF)
}

// The destination is the broadcast address, absent with implicit broadcast on, our short address or our hardware address.
#[tactic(auto, using(crate::proofs::Laws::short_address_is_low), unfolding(crate::specs::Filter::address_for_us))]
fn is_address_for_us(hardware: u64, implicit: bool, address: Address) -> bool
    ensures { result ≡ address_for_us hardware implicit address }
{
    match address {
        Address::Absent => implicit,
        Address::Short(a) => a == 0xFFFF || u64::from(a) == hardware % 65536,
        Address::Extended(a) => a == hardware,
    }
}

// Whether a frame with these facts is well formed and for the station with this hardware address (its eight bytes, highest
// first, as one number), PAN and implicit broadcast setting. (The three one by one are the Rust's parameters.)
#[tactic(auto, unfolding(crate::specs::Filter::for_us, crate::specs::Filter::control_passes, crate::specs::Filter::addressing_for_us))]
pub fn is_frame_valid_and_for_us(
    hardware: u64,
    pan: u16,
    implicit: bool,
    info: PreliminaryFrameInfo,
) -> bool
    ensures { result ≡ for_us hardware pan implicit info }
{
    info.frame_control.is_some_and(|control| control.is_valid())
        && info.addressing_fields.is_some_and(|fields| {
            is_pan_id_for_us(pan, fields.dst_pan_id)
                && is_address_for_us(hardware, implicit, fields.dst_address)
        })
}
