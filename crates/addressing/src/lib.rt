// Which PAN ids stand in a header, and how long each addressing field is (addressing.rs).
#![tactic(auto)]

ghost use Rattle.std.specs.Prelude.{◌≡◌};
ghost use Rattle.addressing.specs.Addressing.{present, address_length, pan_id_length, legacy_pan_ids, current_pan_ids, pan_ids_of, lengths_of};

use frame_control::AddressingMode::{self, Absent, Extended, Short, Unknown};
use frame_control::FrameControl;

// What the standard's table says of a PAN.
const NOT_PRESENT: bool = false;

const PRESENT: bool = true;

// Which of the two PAN ids stand in the header.
#[derive(Clone, Copy)]
struct PanIdsPresent {
    pub dst: bool,
    pub src: bool,
}

// The lengths in bytes of the four fields, in their order in the header.
#[derive(Clone, Copy)]
pub struct AddressingFieldsLengths {
    pub dst_pan_id: u8,
    pub dst_address: u8,
    pub src_pan_id: u8,
    pub src_address: u8,
}

#[tactic(auto, unfolding(crate::specs::Addressing::present))]
fn is_present(mode: AddressingMode) -> bool
    ensures { result ≡ present mode }
{
    matches!(mode, Short | Extended)
}

#[tactic(auto, unfolding(crate::specs::Addressing::address_length))]
fn address_length(mode: AddressingMode) -> u8
    ensures { result ≡ address_length mode }
{
    match mode {
        Absent | Unknown => 0,
        Short => 2,
        Extended => 8,
    }
}

#[tactic(auto, unfolding(crate::specs::Addressing::pan_id_length))]
fn pan_id_length(stands: bool) -> u8
    ensures { result ≡ pan_id_length stands }
{
    if stands { 2 } else { 0 }
}

// Versions 0 and 1.
#[tactic(auto, unfolding(crate::specs::Addressing::legacy_pan_ids))]
fn legacy_pan_ids(dst: bool, src: bool, compression: bool) -> PanIdsPresent
    ensures { result ≡ legacy_pan_ids dst src compression }
{
    PanIdsPresent {
        dst,
        src: src && !(dst && compression),
    }
}

// Version 2: the standard's table, one case for each row, in its order (specs/PanIdCompression.antt). The reserved mode counts as
// not present; the table's "present" is short or extended.
#[tactic(auto, unfolding(crate::specs::Addressing::current_pan_ids, crate::specs::Addressing::address_length))]
fn current_pan_ids(dst: AddressingMode, src: AddressingMode, compression: bool) -> PanIdsPresent
    ensures { result ≡ current_pan_ids dst src compression }
{
    let (dst, src) = match (dst, src, compression) {
        (Absent | Unknown, Absent | Unknown, false) => (NOT_PRESENT, NOT_PRESENT), // row 1
        (Absent | Unknown, Absent | Unknown, true) => (PRESENT, NOT_PRESENT), // row 2
        (Short | Extended, Absent | Unknown, false) => (PRESENT, NOT_PRESENT), // row 3
        (Short | Extended, Absent | Unknown, true) => (NOT_PRESENT, NOT_PRESENT), // row 4
        (Absent | Unknown, Short | Extended, false) => (NOT_PRESENT, PRESENT), // row 5
        (Absent | Unknown, Short | Extended, true) => (NOT_PRESENT, NOT_PRESENT), // row 6
        (Extended, Extended, false) => (PRESENT, NOT_PRESENT), // row 7
        (Extended, Extended, true) => (NOT_PRESENT, NOT_PRESENT), // row 8
        (Short, Short, false) => (PRESENT, PRESENT), // row 9
        (Short, Extended, false) => (PRESENT, PRESENT), // row 10
        (Extended, Short, false) => (PRESENT, PRESENT), // row 11
        (Short, Extended, true) => (PRESENT, NOT_PRESENT), // row 12
        (Extended, Short, true) => (PRESENT, NOT_PRESENT), // row 13
        (Short, Short, true) => (PRESENT, NOT_PRESENT), // row 14
    };
    PanIdsPresent { dst, src }
}

#[tactic(auto, unfolding(crate::specs::Addressing::pan_ids_of))]
fn pan_ids_present(fc: FrameControl) -> PanIdsPresent
    ensures { result ≡ pan_ids_of fc }
{
    let dst = fc.dst_addressing_mode;
    let src = fc.src_addressing_mode;
    if fc.frame_version < 2 {
        legacy_pan_ids(is_present(dst), is_present(src), fc.pan_id_compression)
    } else {
        current_pan_ids(dst, src, fc.pan_id_compression)
    }
}

// The lengths of the four fields. Of a control that is not well formed nobody asks: a reserved mode counts as no address.
#[tactic(auto, unfolding(crate::specs::Addressing::lengths_of))]
pub fn addressing_fields_lengths(fc: FrameControl) -> AddressingFieldsLengths
    ensures { result ≡ lengths_of fc }
{
    let pan_ids = pan_ids_present(fc);
    AddressingFieldsLengths {
        dst_pan_id: pan_id_length(pan_ids.dst),
        dst_address: address_length(fc.dst_addressing_mode),
        src_pan_id: pan_id_length(pan_ids.src),
        src_address: address_length(fc.src_addressing_mode),
    }
}
