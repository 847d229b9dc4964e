// Waits for the end of listening (driver.rs).
#![tactic(auto)]

ghost use Rattle.std.specs.Prelude.{◌≡◌};
ghost use Rattle.moves.specs.Move.{made, told};
ghost use Rattle.stopping.specs.Stopping.{read_header, ask_outbound, stopped_of, stopping_of};

use moves::Accepted;
use radio_frame::Settings;
use refusals::Refusal;
use tasks::{
    Action, Answers, Asked, AwaitedAck, Call, RxTask, State, Stop, StopListening, StopResult,
    TaskDirection, Wait,
};

fn read_header(set: Settings, q: RxTask) -> Accepted
    ensures { made result ≡ read_header set q }
{
    moves::accept(set, Wait::Reading(q), Action::ReadHeader, Answers::None)
}

fn ask_outbound(set: Settings, q: RxTask) -> Accepted
    ensures { made result ≡ ask_outbound set q }
{
    moves::accept(
        set,
        Wait::Asking(Asked::AfterWindow(q)),
        Action::TryReceiveRequest(TaskDirection::Outbound),
        Answers::None,
    )
}

// A failure while listening for an awaited ACK: once it is stopped again without a time, a second time it does not fit.
// The result stands first: as (p, x) the check refuses the match ("a field of a variant is read after the enum is used whole").
#[tactic(auto, unfolding(crate::specs::Stopping::stopped_of, crate::specs::Stopping::frame_stopped, crate::specs::Stopping::outbound_stopped, crate::specs::Stopping::ack_stopped, crate::specs::Stopping::ack_failed, moves::specs::Move::guarded_of))]
fn stopped(s: State, p: Stop, x: StopResult) -> Result<Accepted, Refusal>
    ensures { told s result ≡ stopped_of s x p }
{
    match (x, p) {
        (StopResult::FrameStarted, Stop::Frame(q) | Stop::Outbound(q)) => {
            Ok(read_header(s.set, q))
        }
        (StopResult::FrameStarted, Stop::Ack(a) | Stop::AckAgain(a)) => {
            Ok(moves::ask(s.set, Asked::ReceivingAck(a), Answers::None))
        }
        (StopResult::RxWindowEnded(y), Stop::Outbound(q)) => {
            results::check_received(s.set, y)?;
            Ok(ask_outbound(s.set, q))
        }
        (StopResult::RxWindowEnded(w), Stop::Ack(a) | Stop::AckAgain(a)) => {
            results::check_received(s.set, w)?;
            Ok(moves::ask(s.set, Asked::AfterAckWindow(a.task, a.time), Answers::None))
        }
        (StopResult::Failed, Stop::Outbound(q)) => Ok(moves::listen(s.set, q, Answers::None)),
        (StopResult::Failed, Stop::Ack(a)) => {
            Ok(moves::stop(s.set, Stop::AckAgain(a), StopListening::Now))
        }
        (_, Stop::Frame(_)) | (StopResult::Failed, Stop::AckAgain(_)) => Err(Refusal::Unfit),
    }
}

// A call in a wait for the end of listening: Stopped.
#[tactic(auto, unfolding(crate::specs::Stopping::stopping_of))]
pub fn stopping(s: State, p: Stop, c: Call) -> Result<Accepted, Refusal>
    ensures { told s result ≡ stopping_of s p c }
{
    match c {
        Call::Stopped(x) => stopped(s, p, x),
        _ => Err(Refusal::Unfit),
    }
}
