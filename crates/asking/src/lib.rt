// Waits that ask for a request (driver.rs).
#![tactic(auto)]

ghost use Rattle.std.specs.Prelude.{◌≡◌};
ghost use Rattle.asking.specs.Asking.{tx_spacing, leaving, previous_task_of, next_of, request_action, taken_of, request_of, to_off, none_of, asking_of};
ghost use Rattle.moves.specs.Move.{made, told};

use moves::Accepted;
use phy::Ifs;
use radio_frame::Settings;
use refusals::Refusal;
use tasks::{
    Action, Answer, Answers, Asked, Call, Left, Next, Request, Response, RxResult, RxTask, Slot,
    State, Task, Transition, TxTask, Wait,
};

// What an ask leaves: the answer that the request or None brings at once, the task that the radio is on, and the spacing.
#[derive(Clone, Copy)]
pub struct PreviousTask {
    pub owed: Option<Answer>,
    pub left: Left,
    pub spacing: Option<Ifs>,
}

// The spacing after a sent data frame.
#[tactic(auto, unfolding(crate::specs::Asking::tx_spacing))]
fn tx_spacing(set: Settings, q: TxTask) -> Option<Ifs>
    ensures { result ≡ tx_spacing set q }
{
    Some(phy::from_mpdu_length(radio_frame::sdu_length(set, q.length)))
}

fn leaving(owed: Option<Answer>, left: Left, spacing: Option<Ifs>) -> PreviousTask
    ensures { result ≡ leaving owed left spacing }
{
    PreviousTask {
        owed,
        left,
        spacing,
    }
}

#[tactic(auto, unfolding(crate::specs::Asking::previous_task_of))]
fn previous_task(set: Settings, a: Asked) -> PreviousTask
    ensures { result ≡ previous_task_of set a }
{
    match a {
        Asked::Idle => leaving(None, Left::Off, None),
        Asked::AfterWindow(q) => leaving(
            Some(Slot::from(q).answer(Response::Received(RxResult::RxWindowEnded))),
            Left::Off,
            None,
        ),
        Asked::AfterAckWindow(q, t) => leaving(
            Some(Slot::from(q).answer(Response::Nack(t))),
            Left::Off,
            None,
        ),
        Asked::Receiving(q, i) => leaving(None, Left::Receiving(q), Some(i)),
        Asked::Sending(q) => leaving(None, Left::Sending(q), tx_spacing(set, q)),
        Asked::SendingAck(i) => leaving(None, Left::SendingAck, Some(i)),
        Asked::ReceivingAck(b) => leaving(None, Left::ReceivingAck(b), tx_spacing(set, b.task)),
    }
}

// The task that a request becomes; whether its frame wants an ACK is read from the pool here.
#[tactic(auto, unfolding(crate::specs::Asking::next_of))]
fn next_task(set: Settings, pool: &[u8], q: Request) -> Next
    ensures { result ≡ next_of set pool.now q q.task }
{
    let number = radio_frame::ack_seq_num(radio_frame::frame_bytes(set, pool, q.buffer, 3));
    match q.task {
        Task::Tx(length, _) => {
            let task = TxTask {
                token: q.token,
                buffer: q.buffer,
                length,
            };
            Next::Tx(task, number)
        }
        Task::Rx => Next::Rx(RxTask {
            token: q.token,
            buffer: q.buffer,
        }),
    }
}

#[tactic(auto, unfolding(crate::specs::Asking::request_action))]
fn request_action(q: Request, spacing: Option<Ifs>) -> Action
    ensures { result ≡ request_action q spacing q.task }
{
    match q.task {
        Task::Tx(length, cca) => Action::Tx(q.buffer, length, cca, q.start, spacing, false),
        Task::Rx => Action::Rx(q.buffer, q.start, spacing, false),
    }
}

// A request is taken by a wait that asks: the radio is to enter its task.
#[tactic(auto, unfolding(crate::specs::Asking::taken_of))]
pub fn taken(set: Settings, pool: &[u8], a: Asked, q: Request) -> Accepted
    ensures { made result ≡ taken_of set pool.now a q }
{
    let previous = previous_task(set, a);
    let next = next_task(set, pool, q);
    moves::accept(
        set,
        Wait::Entering(Transition::Request(previous.left, next)),
        request_action(q, previous.spacing),
        previous.owed.into(),
    )
}

#[tactic(auto, unfolding(crate::specs::Asking::request_of, crate::specs::Asking::taken_of, moves::specs::Move::guarded_of))]
fn request(s: State, pool: &[u8], a: Asked, q: Request) -> Result<Accepted, Refusal>
    ensures { told s result ≡ request_of s pool.now a q }
{
    requests::check_asked(s, a, q)?;
    Ok(taken(s.set, pool, a, q))
}

fn to_off(set: Settings, left: Left, rollback: bool) -> Accepted
    ensures { made result ≡ to_off set left rollback }
{
    moves::accept(
        set,
        Wait::Entering(Transition::Request(left, Next::Off)),
        Action::Off(rollback),
        Answers::None,
    )
}

#[tactic(auto, unfolding(crate::specs::Asking::none_of))]
fn none(s: State, a: Asked) -> Result<Accepted, Refusal>
    ensures { told s result ≡ none_of s a }
{
    match a {
        Asked::Idle | Asked::AfterWindow(_) => Err(Refusal::Unfit),
        Asked::AfterAckWindow(q, t) => Ok(moves::to_idle(
            s.set,
            Answers::One(Slot::from(q).answer(Response::Nack(t))),
        )),
        Asked::Receiving(q, _) => Ok(to_off(s.set, Left::Receiving(q), true)),
        Asked::Sending(q) => Ok(to_off(s.set, Left::Sending(q), false)),
        Asked::SendingAck(_) => Ok(to_off(s.set, Left::SendingAck, false)),
        Asked::ReceivingAck(b) => Ok(to_off(s.set, Left::ReceivingAck(b), false)),
    }
}

// A call in a wait that asks: Request or None.
#[tactic(auto, unfolding(crate::specs::Asking::asking_of))]
pub fn asking(s: State, pool: &[u8], a: Asked, c: Call) -> Result<Accepted, Refusal>
    ensures { told s result ≡ asking_of s pool.now a c }
{
    match c {
        Call::Request(q) => request(s, pool, a, q),
        Call::None => none(s, a),
        _ => Err(Refusal::Unfit),
    }
}
