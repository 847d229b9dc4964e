// The state as 64 bytes (docs/LAYOUTS.md): writing it, and reading it where the bytes are those of a valid state.
#![tactic(auto)]

ghost use Rattle.std.specs.Prelude.{◌<◌, ◌≡◌};
ghost use Rattle.state_bytes.specs.Layout.{settings_at, task_at, parts_at, state_at, written_task, written_parts, written_state};
ghost use Rattle.state_bytes.specs.Valid.{slot_fits, slots_differ, valid_state, same_list, Decodes};

use radio_frame::Settings;
use tasks::{Pending, Slot, State, TxTask};
use wait_parts::{Part, Parts};

// ---- Bytes

// A request's token, buffer and length: 7 bytes.
#[tactic(auto, using(util::proofs::Numbers::le_bytes_4))]
fn task_bytes(q: TxTask) -> [u8; 7]
    ensures { result ≡ written_task q }
{
    let mut bytes = [0; 7];
    bytes[..4].copy_from_slice(&q.token.to_le_bytes());
    bytes[4] = q.buffer;
    bytes[5..].copy_from_slice(&q.length.to_le_bytes());
    bytes
}

#[tactic(auto, unfolding(crate::specs::Layout::written_parts), using(util::proofs::Numbers::le_bytes_8))]
fn encode_parts(set: Settings, p: Parts) -> [u8; 64]
    ensures { result ≡ written_parts set p }
{
    let mut bytes = [0; 64];
    bytes[0] = set.count;
    bytes[1] = set.headroom;
    bytes[2] = set.tailroom;
    bytes[3] = set.fcs_length;
    bytes[4..12].copy_from_slice(&set.hardware_addr.to_le_bytes());
    bytes[12..14].copy_from_slice(&set.pan_id.to_le_bytes());
    bytes[14] = u8::from(set.implicit_broadcast);
    bytes[15] = set.ack_buffer;
    bytes[16] = set.spare_buffer;
    bytes[17] = p.kind;
    bytes[18] = p.case.code;
    bytes[19] = p.next.code;
    bytes[20..27].copy_from_slice(&task_bytes(p.case.task));
    bytes[27..34].copy_from_slice(&task_bytes(p.next.task));
    bytes[34] = p.case.number;
    bytes[35] = p.next.number;
    bytes[36] = p.case.spacing;
    bytes[37..45].copy_from_slice(&p.case.time.to_le_bytes());
    bytes
}

// The bytes that a state is written as.
#[tactic(auto, unfolding(crate::specs::Layout::written_state))]
pub fn encode(s: State) -> [u8; 64]
    ensures { result ≡ written_state s }
{
    encode_parts(s.set, wait_parts::wait_parts(s.wait))
}

// Field after field, each of its own width and place: no loop.
#[tactic(auto, unfolding(crate::specs::Layout::settings_at))]
fn settings_at(bytes: &[u8]) -> Settings
    ensures { result ≡ settings_at bytes.now }
{
    Settings {
        count: util::byte_at(bytes, 0),
        headroom: util::byte_at(bytes, 1),
        tailroom: util::byte_at(bytes, 2),
        fcs_length: util::byte_at(bytes, 3),
        hardware_addr: util::u64_at(bytes, 4),
        pan_id: util::u16_at(bytes, 12),
        implicit_broadcast: util::byte_at(bytes, 14) == 1,
        ack_buffer: util::byte_at(bytes, 15),
        spare_buffer: util::byte_at(bytes, 16),
    }
}

// A request's token, buffer and length, from a place on.
#[tactic(auto, unfolding(crate::specs::Layout::task_at))]
fn task_at(bytes: &[u8], at: usize) -> TxTask
    requires { at < 64 }
    ensures { result ≡ task_at bytes.now at }
{
    TxTask {
        token: util::u32_at(bytes, at),
        buffer: util::byte_at(bytes, at + 4),
        length: util::u16_at(bytes, at + 5),
    }
}

// Field after field, as settings_at.
#[tactic(auto, unfolding(crate::specs::Layout::parts_at))]
fn parts_at(bytes: &[u8]) -> Parts
    ensures { result ≡ parts_at bytes.now }
{
    let case = Part {
        code: util::byte_at(bytes, 18),
        task: task_at(bytes, 20),
        number: util::byte_at(bytes, 34),
        spacing: util::byte_at(bytes, 36),
        time: util::u64_at(bytes, 37),
    };
    let next = Part {
        code: util::byte_at(bytes, 19),
        task: task_at(bytes, 27),
        number: util::byte_at(bytes, 35),
        spacing: 0,
        time: 0,
    };
    Parts {
        kind: util::byte_at(bytes, 17),
        case,
        next,
    }
}

#[tactic(auto, unfolding(crate::specs::Layout::state_at))]
fn state_at(bytes: &[u8]) -> State
    ensures { result ≡ state_at bytes.now }
{
    State {
        set: settings_at(bytes),
        wait: wait_parts::wait_at(parts_at(bytes)),
    }
}

// ---- Which bytes are those of a valid state

// A request's buffer is in range and none of the own ones.
#[tactic(auto, unfolding(crate::specs::Valid::slot_fits))]
fn slot_fits(set: Settings, slot: Option<Slot>) -> bool
    ensures { result ≡ slot_fits set slot }
{
    slot.is_none_or(|h| {
        h.buffer < set.count && h.buffer != set.ack_buffer && h.buffer != set.spare_buffer
    })
}

// Two requests have different tokens and buffers.
#[tactic(auto, unfolding(crate::specs::Valid::slots_differ, crate::specs::Valid::differs_from))]
fn slots_differ(p: Pending) -> bool
    ensures { result ≡ slots_differ p.second p.first }
{
    match (p.first, p.second) {
        (Some(a), Some(b)) => a.token != b.token && a.buffer != b.buffer,
        _ => true,
    }
}

#[tactic(auto, unfolding(crate::specs::Valid::valid_state))]
fn is_valid_state(s: State) -> bool
    ensures { result ≡ valid_state s }
{
    let p = tasks::pending_requests(s.wait);
    let own_size = radio_frame::BUFFER_LENGTH * u32::from(s.set.count);
    radio_frame::check_settings(s.set, own_size as usize).is_ok()
        && slot_fits(s.set, p.first)
        && slot_fits(s.set, p.second)
        && slots_differ(p)
}

// The valid state that bytes are written as.
#[tactic(auto, using(crate::proofs::Same::same_list_is), unfolding(crate::specs::Valid::decoded_of, crate::specs::Valid::holds_state, crate::specs::Valid::decoded_refusal))]
pub fn decode(bytes: &[u8]) -> Option<State>
    ensures { Decodes bytes.now result }
{
    let s = state_at(bytes);
    (is_valid_state(s) && encode(s).as_slice() == bytes).then_some(s)
}
