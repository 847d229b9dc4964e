// What comes after the task that was left: Entered, in a wait for a transition of the radio (driver.rs).
#![tactic(auto)]

ghost use Rattle.std.specs.Prelude.{◌≡◌};
ghost use Rattle.phy.specs.Phy.{latest_ack_start_of};
ghost use Rattle.moves.specs.Move.{made, told};
ghost use Rattle.entered.specs.Entered.{sending_move, arrival_of, request_entered, with_spare, rearm_entered, ack_turn_entered, ack_wait_started, ack_wait_entered, entered_of};

use moves::Accepted;
use phy::Ifs;
use radio_frame::Settings;
use refusals::Refusal;
use tasks::{
    Action, Answers, Asked, AwaitedAck, Left, Next, RxTask, State, Stop, StopListening, TaskResult,
    Timestamp, Transition, TxTask, Wait,
};

// A frame is being sent: if it wants an ACK, the spare buffer listens for it after the ACK spacing.
#[tactic(auto, unfolding(crate::specs::Entered::sending_move))]
fn send(set: Settings, q: TxTask, number: Option<u8>, answers: Answers) -> Accepted
    ensures { made result ≡ sending_move set q answers number }
{
    match number {
        Some(k) => moves::accept(
            set,
            Wait::Entering(Transition::AckWait(q, k)),
            Action::Rx(
                set.spare_buffer,
                Timestamp::BestEffort,
                Some(Ifs::Aifs),
                false,
            ),
            answers,
        ),
        None => moves::ask(set, Asked::Sending(q), answers),
    }
}

// The next task is entered, with the answers of the one that was left.
#[tactic(auto, unfolding(crate::specs::Entered::arrival_of))]
fn arrive(set: Settings, n: Next, answers: Answers) -> Accepted
    ensures { made result ≡ arrival_of set answers n }
{
    match n {
        Next::Tx(q, k) => send(set, q, k, answers),
        Next::Rx(q) => moves::listen(set, q, answers),
        Next::Off => moves::to_idle(set, answers),
    }
}

#[tactic(auto, unfolding(crate::specs::Entered::request_entered, moves::specs::Move::guarded_of))]
fn request_entered(
    s: State,
    pool: &[u8],
    l: Left,
    n: Next,
    x: TaskResult,
) -> Result<Accepted, Refusal>
    ensures { told s result ≡ request_entered s pool.now l n x }
{
    let owed = results::leave_task(s.set, pool, l, x)?;
    Ok(arrive(s.set, n, owed.into()))
}

// After the re-arm the request has the buffer that was the spare one, and its own is the spare one.
#[tactic(auto, unfolding(crate::specs::Entered::rearm_entered, crate::specs::Entered::with_spare, moves::specs::Move::guarded_of))]
fn rearm_entered(s: State, q: RxTask, x: TaskResult) -> Result<Accepted, Refusal>
    ensures { told s result ≡ rearm_entered s q x }
{
    results::leave_receiving(s.set, q, x)?;
    let swapped = RxTask {
        buffer: s.set.spare_buffer,
        ..q
    };
    let set = Settings {
        spare_buffer: q.buffer,
        ..s.set
    };
    Ok(moves::listen(set, swapped, Answers::None))
}

#[tactic(auto, unfolding(crate::specs::Entered::ack_turn_entered, moves::specs::Move::guarded_of))]
fn ack_turn_entered(s: State, q: RxTask, i: Ifs, x: TaskResult) -> Result<Accepted, Refusal>
    ensures { told s result ≡ ack_turn_entered s q i x }
{
    let owed = results::leave_receiving(s.set, q, x)?;
    Ok(moves::ask(s.set, Asked::SendingAck(i), owed.into()))
}

#[tactic(auto, unfolding(crate::specs::Entered::ack_wait_entered, crate::specs::Entered::ack_wait_started))]
fn ack_wait_entered(
    s: State,
    q: TxTask,
    k: u8,
    x: TaskResult,
    entry: u64,
) -> Result<Accepted, Refusal>
    ensures { told s result ≡ ack_wait_entered s q k entry x }
{
    let TaskResult::Sent(time) = x else {
        return Err(Refusal::Unfit);
    };
    let latest = phy::latest_ack_start(entry).ok_or(Refusal::LatestAckStart)?;
    let awaited = AwaitedAck {
        task: q,
        number: k,
        time,
    };
    Ok(moves::stop(s.set, Stop::Ack(awaited), StopListening::At(latest)))
}

// Entered, in a wait for a transition.
#[tactic(auto, unfolding(crate::specs::Entered::entered_of))]
pub fn entered(
    s: State,
    pool: &[u8],
    e: Transition,
    x: TaskResult,
    entry: u64,
) -> Result<Accepted, Refusal>
    ensures { told s result ≡ entered_of s pool.now x entry e }
{
    match e {
        Transition::Request(l, n) => request_entered(s, pool, l, n, x),
        Transition::Rearm(q) => rearm_entered(s, q, x),
        Transition::AckTurn(q, i) => ack_turn_entered(s, q, i, x),
        Transition::AckWait(q, k) => ack_wait_entered(s, q, k, x, entry),
    }
}
