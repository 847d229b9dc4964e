// Results of radio tasks: which lengths are refused, and the answer that leaving a task owes (driver.rs, tasks.rs).
#![tactic(auto)]

ghost use Rattle.std.specs.Prelude.{◌≡◌};
ghost use Rattle.refusals.specs.Refusals.{number_of};
ghost use Rattle.results.specs.Results.{received_unfit, received_refusal, leave_receiving, ack_response, ack_received, leave_of, Leaves};

use radio_frame::Settings;
use refusals::Refusal;
use tasks::{Answer, AwaitedAck, Left, Response, RxResult, RxTask, Slot, TaskResult};

// Whether a received length is refused.
#[tactic(auto, unfolding(crate::specs::Results::received_unfit))]
fn is_received_unfit(set: Settings, r: RxResult) -> bool
    ensures { result ≡ received_unfit set r }
{
    match r {
        RxResult::Frame(n, _, _) => n == 0 || radio_frame::is_too_long(set, n),
        RxResult::RxWindowEnded | RxResult::CrcError(_, _) => false,
    }
}

// Refusal 10 where a receive result has a length that is refused.
#[tactic(auto, unfolding(crate::specs::Results::received_refusal))]
pub fn check_received(set: Settings, r: RxResult) -> Result<(), Refusal>
    ensures { number_of result ≡ received_refusal set r }
{
    if is_received_unfit(set, r) {
        return Err(Refusal::ReceivedLength);
    }
    Ok(())
}

// Leaving a reception: the receive result is the answer.
#[tactic(auto, unfolding(crate::specs::Results::leave_receiving))]
pub fn leave_receiving(set: Settings, q: RxTask, r: TaskResult) -> Result<Option<Answer>, Refusal>
    ensures { Leaves (leave_receiving set q r) result }
{
    match r {
        TaskResult::Rx(x) => {
            check_received(set, x)?;
            Ok(Some(Slot::from(q).answer(Response::Received(x))))
        }
        _ => Err(Refusal::Unfit),
    }
}

// Sent where the frame of a length in the spare buffer is the awaited acknowledgement, else Nack.
#[tactic(auto, unfolding(crate::specs::Results::ack_response))]
fn ack_response(set: Settings, pool: &[u8], a: AwaitedAck, length: u16) -> Response
    ensures { result ≡ ack_response set pool.now a length }
{
    let frame = radio_frame::frame_bytes(set, pool, set.spare_buffer, 3);
    if ack::is_ack_for(frame, length, a.number) {
        Response::Sent(a.time)
    } else {
        Response::Nack(a.time)
    }
}

#[tactic(auto, unfolding(crate::specs::Results::ack_received))]
fn ack_received(
    set: Settings,
    pool: &[u8],
    a: AwaitedAck,
    r: RxResult,
) -> Result<Option<Answer>, Refusal>
    ensures { Leaves (ack_received set pool.now a r) result }
{
    match r {
        RxResult::Frame(n, _, _) => {
            check_received(set, r)?;
            let response = ack_response(set, pool, a, n);
            Ok(Some(Slot::from(a.task).answer(response)))
        }
        RxResult::RxWindowEnded => Err(Refusal::Unfit),
        RxResult::CrcError(_, _) => Ok(Some(Slot::from(a.task).answer(Response::Nack(a.time)))),
    }
}

// Leaving a task with a result: the answer that is owed, if any; refusal 5 where the result is not one of that task's, or 10.
#[tactic(auto, unfolding(crate::specs::Results::leave_of, crate::specs::Results::leave_off, crate::specs::Results::leave_sending, crate::specs::Results::leave_sending_ack, crate::specs::Results::leave_receiving_ack))]
pub fn leave_task(
    set: Settings,
    pool: &[u8],
    l: Left,
    r: TaskResult,
) -> Result<Option<Answer>, Refusal>
    ensures { Leaves (leave_of set pool.now r l) result }
{
    match (l, r) {
        (Left::Off, TaskResult::Off) | (Left::SendingAck, TaskResult::Sent(_)) => Ok(None),
        (Left::Receiving(q), _) => leave_receiving(set, q, r),
        (Left::Sending(q), TaskResult::Sent(t)) => {
            Ok(Some(Slot::from(q).answer(Response::Sent(t))))
        }
        (Left::ReceivingAck(a), TaskResult::Rx(x)) => ack_received(set, pool, a, x),
        _ => Err(Refusal::Unfit),
    }
}
