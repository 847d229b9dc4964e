// Requests, radio tasks, their results, the waits, the unanswered requests of a wait, and the one form of answers (driver.rs,
// tasks.rs).
#![tactic(auto)]

ghost use Rattle.std.specs.Prelude.{◌≡◌};
ghost use Rattle.tasks.specs.Pending.{tx_holds, rx_holds, left_slot, next_slot, asked_slot, stop_slot, transition_slots, pending_of};
ghost use Rattle.tasks.specs.Answers.{answer_to, answers_of};

use phy::Ifs;
use radio_frame::Settings;

// When a task is to start. (No Option: best effort is a start, and none is missing.)
#[derive(Clone, Copy, PartialEq, Eq)]
pub enum Timestamp {
    BestEffort,
    Scheduled(u64),
}

// What a request asks for: to send a frame of a length without checksum, with or without a channel check, or to receive one. (No
// Option: these are two kinds of task.)
#[derive(Clone, Copy)]
pub enum Task {
    Tx(u16, bool),
    Rx,
}

#[derive(Clone, Copy)]
pub struct Request {
    pub token: u32,
    pub start: Timestamp,
    pub buffer: u8,
    pub task: Task,
}

// What a receive task came to: a frame of a length without checksum, received at a time, with its link quality; the end of its
// window; a frame, received at a time, whose checksum was wrong, with its link quality.
#[derive(Clone, Copy)]
pub enum RxResult {
    Frame(u16, u64, u8),
    RxWindowEnded,
    CrcError(u64, u8),
}

// What the previous radio task came to. Off has no result; a transmit result is the time sent.
#[derive(Clone, Copy)]
pub enum TaskResult {
    Off,
    Sent(u64),
    Rx(RxResult),
}

// What stopping a listening radio came to.
#[derive(Clone, Copy)]
pub enum StopResult {
    FrameStarted,
    RxWindowEnded(RxResult),
    Failed,
}

// Why a transition fell back. (No Option: these are two causes.)
#[derive(Clone, Copy)]
pub enum Cause {
    Scheduling(Timestamp),
    Task,
}

// The nine calls.
#[derive(Clone, Copy)]
pub enum Call {
    Request(Request),
    None,
    FrameStart,
    OutboundSeen(Timestamp, bool),
    Stopped(StopResult),
    Header(u16, u16),
    Entered(TaskResult, u64),
    Fallback(TaskResult, Cause),
    Rollback,
}

// An accepted transmit request that has no answer yet.
#[derive(Clone, Copy)]
pub struct TxTask {
    pub token: u32,
    pub buffer: u8,
    pub length: u16,
}

// An accepted receive request that has no answer yet.
#[derive(Clone, Copy)]
pub struct RxTask {
    pub token: u32,
    pub buffer: u8,
}

// A transmit request whose frame was sent at a time and wants the acknowledgement with a number.
#[derive(Clone, Copy)]
pub struct AwaitedAck {
    pub task: TxTask,
    pub number: u8,
    pub time: u64,
}

// What the radio leaves when it enters the next task, and so whose answer is owed then.
#[derive(Clone, Copy)]
pub enum Left {
    Off,
    Receiving(RxTask),
    Sending(TxTask),
    SendingAck,
    ReceivingAck(AwaitedAck),
}

// What the radio enters for a request, or for none. A transmit request's number is noted if its frame wants an ACK.
#[derive(Clone, Copy)]
pub enum Next {
    Tx(TxTask, Option<u8>),
    Rx(RxTask),
    Off,
}

// Waits for a request or for None, by what the radio does meanwhile. Idle, after a listening window and after an ACK window
// it is off; else it works on a task, and the spacing after a received data frame is kept.
#[derive(Clone, Copy)]
pub enum Asked {
    Idle,
    AfterWindow(RxTask),
    AfterAckWindow(TxTask, u64),
    Receiving(RxTask, Ifs),
    Sending(TxTask),
    SendingAck(Ifs),
    ReceivingAck(AwaitedAck),
}

// Waits for Entered, Fallback or Rollback: for the next request's task, for the re-arm, for an ACK turn, for an ACK wait.
#[derive(Clone, Copy)]
pub enum Transition {
    Request(Left, Next),
    Rearm(RxTask),
    AckTurn(RxTask, Ifs),
    AckWait(TxTask, u8),
}

// Waits for Stopped: after FrameStart, after OutboundSeen, for an awaited ACK, for it once more after a failure.
#[derive(Clone, Copy)]
pub enum Stop {
    Frame(RxTask),
    Outbound(RxTask),
    Ack(AwaitedAck),
    AckAgain(AwaitedAck),
}

// The waits, by the calls that fit them: Request and None; Entered, Fallback and Rollback; FrameStart and OutboundSeen;
// Stopped; Header.
#[derive(Clone, Copy)]
pub enum Wait {
    Asking(Asked),
    Entering(Transition),
    Listening(RxTask),
    Stopping(Stop),
    Reading(RxTask),
}

#[derive(Clone, Copy)]
pub struct State {
    pub set: Settings,
    pub wait: Wait,
}

// Which requests an ask takes.
#[derive(Clone, Copy)]
pub enum TaskDirection {
    Any,
    Outbound,
}

// How a listening radio is to be stopped.
#[derive(Clone, Copy)]
pub enum StopListening {
    Now,
    At(u64),
    Before(u64, bool),
}

// What the radio or the queue is to do. Tx: buffer, length, channel check, start, spacing, rollback. Rx: buffer, start,
// spacing, rollback. Off: rollback. Nothing stands in a refusal only.
#[derive(Clone, Copy, Default)]
pub enum Action {
    #[default]
    Nothing,
    ReceiveRequest,
    TryReceiveRequest(TaskDirection),
    Listen,
    Stop(StopListening),
    ReadHeader,
    Tx(u8, u16, bool, Timestamp, Option<Ifs>, bool),
    Rx(u8, Timestamp, Option<Ifs>, bool),
    Off(bool),
}

// What a request came to: for transmit Sent, Nack and the errors, for receive a receive result.
#[derive(Clone, Copy)]
pub enum Response {
    Sent(u64),
    Nack(u64),
    Error(Cause),
    Received(RxResult),
}

#[derive(Clone, Copy)]
pub struct Answer {
    pub token: u32,
    pub buffer: u8,
    pub response: Response,
}

// Up to two answers, the earlier request's first. (Not a Vec, as there is no heap, nor two Options, which could be None and Some.)
#[derive(Clone, Copy, Default)]
pub enum Answers {
    #[default]
    None,
    One(Answer),
    Two(Answer, Answer),
}

#[derive(Clone, Copy, Default)]
pub struct Reply {
    pub action: Action,
    pub answers: Answers,
}

// Which starts a request may have.
#[derive(Clone, Copy)]
pub enum Starts {
    Never,
    BestEffort,
    Any,
}

// The starts that a wait allows, by direction.
#[derive(Clone, Copy)]
pub struct Allowed {
    pub tx: Starts,
    pub rx: Starts,
}

// ---- The unanswered requests of a wait

// What an unanswered request holds until its answer returns it. (Not RxTask, which has the same fields: that says which kind of request it
// is.)
#[derive(Clone, Copy)]
pub struct Slot {
    pub token: u32,
    pub buffer: u8,
}

// A Slot within both kinds would say this once, but put a name more into each use of their token and buffer.
impl From<TxTask> for Slot {
    ghost from_gives = { λ tx r. r ≡ tx_holds tx };

    fn from(tx: TxTask) -> Slot {
        Slot {
            token: tx.token,
            buffer: tx.buffer,
        }
    }
}

impl From<RxTask> for Slot {
    ghost from_gives = { λ rx r. r ≡ rx_holds rx };

    fn from(rx: RxTask) -> Slot {
        Slot {
            token: rx.token,
            buffer: rx.buffer,
        }
    }
}

// The unanswered requests of a wait, the earlier one first.
#[derive(Clone, Copy)]
pub struct Pending {
    pub first: Option<Slot>,
    pub second: Option<Slot>,
}

#[tactic(auto, unfolding(crate::specs::Pending::left_slot))]
fn left_slot(l: Left) -> Option<Slot>
    ensures { result ≡ left_slot l }
{
    match l {
        Left::Off | Left::SendingAck => None,
        Left::Receiving(q) => Some(q.into()),
        Left::Sending(q) => Some(q.into()),
        Left::ReceivingAck(a) => Some(a.task.into()),
    }
}

#[tactic(auto, unfolding(crate::specs::Pending::next_slot))]
fn next_slot(n: Next) -> Option<Slot>
    ensures { result ≡ next_slot n }
{
    match n {
        Next::Tx(q, _) => Some(q.into()),
        Next::Rx(q) => Some(q.into()),
        Next::Off => None,
    }
}

#[tactic(auto, unfolding(crate::specs::Pending::asked_slot))]
fn asked_slot(a: Asked) -> Option<Slot>
    ensures { result ≡ asked_slot a }
{
    match a {
        Asked::Idle | Asked::SendingAck(_) => None,
        Asked::AfterWindow(q) | Asked::Receiving(q, _) => Some(q.into()),
        Asked::AfterAckWindow(q, _) | Asked::Sending(q) => Some(q.into()),
        Asked::ReceivingAck(b) => Some(b.task.into()),
    }
}

#[tactic(auto, unfolding(crate::specs::Pending::stop_slot))]
fn stop_slot(p: Stop) -> Option<Slot>
    ensures { result ≡ stop_slot p }
{
    match p {
        Stop::Frame(q) | Stop::Outbound(q) => Some(q.into()),
        Stop::Ack(a) | Stop::AckAgain(a) => Some(a.task.into()),
    }
}

#[tactic(auto, unfolding(crate::specs::Pending::transition_slots))]
fn transition_slots(e: Transition) -> Pending
    ensures { result ≡ transition_slots e }
{
    match e {
        Transition::Request(l, n) => Pending {
            first: left_slot(l),
            second: next_slot(n),
        },
        Transition::Rearm(q) | Transition::AckTurn(q, _) => Pending {
            first: Some(q.into()),
            second: None,
        },
        Transition::AckWait(q, _) => Pending {
            first: Some(q.into()),
            second: None,
        },
    }
}

// The unanswered requests of a wait.
#[tactic(auto, unfolding(crate::specs::Pending::pending_of))]
pub fn pending_requests(w: Wait) -> Pending
    ensures { result ≡ pending_of w }
{
    match w {
        Wait::Asking(a) => Pending {
            first: asked_slot(a),
            second: None,
        },
        Wait::Entering(e) => transition_slots(e),
        Wait::Stopping(p) => Pending {
            first: stop_slot(p),
            second: None,
        },
        Wait::Listening(q) | Wait::Reading(q) => Pending {
            first: Some(q.into()),
            second: None,
        },
    }
}

// ---- Answers

impl Slot {
    // The answer to the request: its token, its buffer back, what it came to.
    pub fn answer(self, response: Response) -> Answer
        ensures { result ≡ answer_to self response }
    {
        Answer {
            token: self.token,
            buffer: self.buffer,
            response,
        }
    }
}

// What is owed, as the answers of a call.
impl From<Option<Answer>> for Answers {
    ghost from_gives = { λ owed r. r ≡ answers_of owed };

    #[tactic(auto, unfolding(crate::specs::Answers::answers_of))]
    fn from(owed: Option<Answer>) -> Answers {
        match owed {
            None => Answers::None,
            Some(a) => Answers::One(a),
        }
    }
}
