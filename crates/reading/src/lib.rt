// The header of a frame that is being received (driver.rs).
#![tactic(auto)]

ghost use Rattle.std.specs.Prelude.{◌≡◌};
ghost use Rattle.refusals.specs.Refusals.{number_of};
ghost use Rattle.moves.specs.Move.{made, told};
ghost use Rattle.reading.specs.Reading.{broadcast_destination, broadcast, requested, number_to_acknowledge, rearm_move, ack_turn_move, receive_move, header_move_of, arrived_refusal, header_of, reading_of};

use frame_control::FrameControl;
use header::{Address, AddressingFields, PreliminaryFrameInfo};
use moves::Accepted;
use phy::Ifs;
use radio_frame::Settings;
use refusals::Refusal;
use tasks::{Action, Answers, Asked, Call, Reply, RxTask, State, Timestamp, Transition, Wait};

// The destination is the broadcast address or absent.
#[tactic(auto, unfolding(crate::specs::Reading::broadcast_destination))]
fn is_broadcast_destination(address: Address) -> bool
    ensures { result ≡ broadcast_destination address }
{
    matches!(address, Address::Absent | Address::Short(0xFFFF))
}

// Whether a frame for us is a broadcast: to the short address FFFF, or without a destination.
#[tactic(auto, unfolding(crate::specs::Reading::broadcast))]
fn is_broadcast(fact: Option<AddressingFields>) -> bool
    ensures { result ≡ broadcast fact }
{
    fact.is_some_and(|fields| is_broadcast_destination(fields.dst_address))
}

// The number that is wanted back: the frame's own, if it has one and requests an acknowledgement.
#[tactic(auto, unfolding(crate::specs::Reading::requested))]
fn requested_ack(control: Option<FrameControl>, number: Option<u8>) -> Option<u8>
    ensures { result ≡ requested control number }
{
    let fc = control?;
    let k = number?;
    fc.ack_request.then_some(k)
}

// The number to acknowledge: the one that is wanted, but none of a broadcast.
#[tactic(auto, unfolding(crate::specs::Reading::number_to_acknowledge))]
fn number_to_acknowledge(fact: Option<AddressingFields>, wanted: Option<u8>) -> Option<u8>
    ensures { result ≡ number_to_acknowledge fact wanted }
{
    wanted.filter(|_| !is_broadcast(fact))
}

fn rearm(set: Settings, q: RxTask) -> Accepted
    ensures { made result ≡ rearm_move set q }
{
    moves::accept(
        set,
        Wait::Entering(Transition::Rearm(q)),
        Action::Rx(set.spare_buffer, Timestamp::BestEffort, None, false),
        Answers::None,
    )
}

fn ack_turn(set: Settings, q: RxTask, i: Ifs, k: u8) -> Accepted
    ensures { made result ≡ ack_turn_move set q i k }
{
    let turn = moves::accept(
        set,
        Wait::Entering(Transition::AckTurn(q, i)),
        Action::Tx(
            set.ack_buffer,
            3,
            false,
            Timestamp::BestEffort,
            Some(Ifs::Aifs),
            true,
        ),
        Answers::None,
    );
    Accepted {
        number: Some(k),
        ..turn
    }
}

#[tactic(auto, unfolding(crate::specs::Reading::receive_move))]
fn receive(set: Settings, q: RxTask, i: Ifs, number: Option<u8>) -> Accepted
    ensures { made result ≡ receive_move set q i number }
{
    match number {
        Some(k) => ack_turn(set, q, i, k),
        None => moves::ask(set, Asked::Receiving(q, i), Answers::None),
    }
}

// What the facts of a header come to.
#[tactic(auto, unfolding(crate::specs::Reading::header_move_of))]
fn header_move(set: Settings, q: RxTask, info: PreliminaryFrameInfo, length: u16) -> Accepted
    ensures { made result ≡ header_move_of set q info length }
{
    let ours = filter::is_frame_valid_and_for_us(
        set.hardware_addr,
        set.pan_id,
        set.implicit_broadcast,
        info,
    );
    if !ours {
        return rearm(set, q);
    }
    let ifs = phy::from_mpdu_length(length);
    let wanted = requested_ack(info.frame_control, info.seq_nr);
    let number = number_to_acknowledge(info.addressing_fields, wanted);
    receive(set, q, ifs, number)
}

#[tactic(auto, unfolding(crate::specs::Reading::arrived_refusal))]
fn check_arrived(set: Settings, arrived: u16) -> Result<(), Refusal>
    ensures { number_of result ≡ arrived_refusal set arrived }
{
    if radio_frame::is_too_long(set, arrived) {
        return Err(Refusal::ReceivedLength);
    }
    Ok(())
}

#[tactic(auto, unfolding(crate::specs::Reading::header_of, moves::specs::Move::guarded_of))]
fn read(s: State, pool: &[u8], q: RxTask, arrived: u16, length: u16) -> Result<Accepted, Refusal>
    ensures { told s result ≡ header_of s pool.now q arrived length }
{
    check_arrived(s.set, arrived)?;
    let frame = radio_frame::frame_bytes(s.set, pool, q.buffer, arrived.into());
    Ok(header_move(s.set, q, header::preliminary_frame_info(frame), length))
}

// A call in a wait for the header: Header.
#[tactic(auto, unfolding(crate::specs::Reading::reading_of))]
pub fn reading(s: State, pool: &[u8], q: RxTask, c: Call) -> Result<Accepted, Refusal>
    ensures { told s result ≡ reading_of s pool.now q c }
{
    match c {
        Call::Header(n, l) => read(s, pool, q, n, l),
        _ => Err(Refusal::Unfit),
    }
}
