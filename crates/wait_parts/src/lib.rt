// A wait as numbers, and numbers as a wait (docs/LAYOUTS.md, "The state's 64 bytes", the tables of kinds and cases).
#![tactic(auto)]

ghost use Rattle.std.specs.Prelude.{◌≡◌};
ghost use Rattle.wait_parts.specs.Parts.{no_task, rx_task, part_of, asked_part, left_part, tx_part, next_part, stop_part, alone_parts, transition_parts, wait_parts_of, ifs_at, ack_at, rx_at, asked_at, left_at, next_at, transition_at, stop_at, wait_at};

use phy::Ifs;
use tasks::{Asked, AwaitedAck, Left, Next, RxTask, Stop, Transition, TxTask, Wait};

// A case of a wait as numbers: its code, and what it holds.
#[derive(Clone, Copy)]
pub struct Part {
    pub code: u8,
    pub task: TxTask,
    pub number: u8,
    pub spacing: u8,
    pub time: u64,
}

// A wait as numbers: its kind, its case (of a transition for a request: what the radio leaves), and what the radio enters.
#[derive(Clone, Copy)]
pub struct Parts {
    pub kind: u8,
    pub case: Part,
    pub next: Part,
}

// ---- A wait as numbers, each table by a function of its definition's name, here and below: a From for each would hide which it is

const NO_TASK: TxTask = TxTask {
    token: 0,
    buffer: 0,
    length: 0,
};

// The first case of a table: it holds nothing. (A constant, not Default: its many uses stay short.)
const NOTHING: Part = Part {
    code: 0,
    task: NO_TASK,
    number: 0,
    spacing: 0,
    time: 0,
};

fn rx_task(q: RxTask) -> TxTask
    ensures { result ≡ rx_task q }
{
    TxTask {
        token: q.token,
        buffer: q.buffer,
        ..NO_TASK
    }
}

impl Part {
    // A case that holds a receive request.
    fn receiving(code: u8, q: RxTask) -> Part
        ensures { result ≡ part_of code (rx_task q) 0 0 0 }
    {
        Part {
            code,
            task: rx_task(q),
            ..NOTHING
        }
    }

    // A case that holds a transmit request.
    fn sending(code: u8, task: TxTask) -> Part
        ensures { result ≡ part_of code task 0 0 0 }
    {
        Part {
            code,
            task,
            ..NOTHING
        }
    }

    // A case that holds an awaited acknowledgement.
    fn awaiting(code: u8, a: AwaitedAck) -> Part
        ensures { result ≡ part_of code a.task a.number 0 a.time }
    {
        Part {
            number: a.number,
            time: a.time,
            ..Part::sending(code, a.task)
        }
    }
}

#[tactic(auto, unfolding(crate::specs::Parts::asked_part))]
fn asked_part(a: Asked) -> Part
    ensures { result ≡ asked_part a }
{
    match a {
        Asked::Idle => NOTHING,
        Asked::AfterWindow(q) => Part::receiving(1, q),
        Asked::AfterAckWindow(task, time) => Part {
            time,
            ..Part::sending(2, task)
        },
        Asked::Receiving(q, i) => Part {
            spacing: u8::from(i),
            ..Part::receiving(3, q)
        },
        Asked::Sending(task) => Part::sending(4, task),
        Asked::SendingAck(i) => Part {
            code: 5,
            spacing: u8::from(i),
            ..NOTHING
        },
        Asked::ReceivingAck(b) => Part::awaiting(6, b),
    }
}

#[tactic(auto, unfolding(crate::specs::Parts::left_part))]
fn left_part(l: Left) -> Part
    ensures { result ≡ left_part l }
{
    match l {
        Left::Off => NOTHING,
        Left::Receiving(q) => Part::receiving(1, q),
        Left::Sending(task) => Part::sending(2, task),
        Left::SendingAck => Part { code: 3, ..NOTHING },
        Left::ReceivingAck(a) => Part::awaiting(4, a),
    }
}

#[tactic(auto, unfolding(crate::specs::Parts::next_part, crate::specs::Parts::tx_part))]
fn next_part(n: Next) -> Part
    ensures { result ≡ next_part n }
{
    match n {
        Next::Off => NOTHING,
        Next::Tx(task, None) => Part::sending(1, task),
        Next::Tx(task, Some(number)) => Part {
            number,
            ..Part::sending(2, task)
        },
        Next::Rx(q) => Part::receiving(3, q),
    }
}

#[tactic(auto, unfolding(crate::specs::Parts::stop_part))]
fn stop_part(p: Stop) -> Part
    ensures { result ≡ stop_part p }
{
    match p {
        Stop::Frame(q) => Part::receiving(0, q),
        Stop::Outbound(q) => Part::receiving(1, q),
        Stop::Ack(a) => Part::awaiting(2, a),
        Stop::AckAgain(a) => Part::awaiting(3, a),
    }
}

// A wait without a request whose task is entered.
fn alone(kind: u8, case: Part) -> Parts
    ensures { result ≡ alone_parts kind case }
{
    Parts {
        kind,
        case,
        next: NOTHING,
    }
}

#[tactic(auto, unfolding(crate::specs::Parts::transition_parts))]
fn transition_parts(e: Transition) -> Parts
    ensures { result ≡ transition_parts e }
{
    match e {
        Transition::Request(l, n) => Parts {
            kind: 1,
            case: left_part(l),
            next: next_part(n),
        },
        Transition::Rearm(q) => alone(2, Part::receiving(0, q)),
        Transition::AckTurn(q, i) => alone(
            2,
            Part {
                spacing: u8::from(i),
                ..Part::receiving(1, q)
            },
        ),
        Transition::AckWait(task, number) => alone(
            2,
            Part {
                number,
                ..Part::sending(2, task)
            },
        ),
    }
}

#[tactic(auto, unfolding(crate::specs::Parts::wait_parts_of))]
pub fn wait_parts(w: Wait) -> Parts
    ensures { result ≡ wait_parts_of w }
{
    match w {
        Wait::Asking(a) => alone(0, asked_part(a)),
        Wait::Entering(e) => transition_parts(e),
        Wait::Listening(q) => alone(3, Part::receiving(0, q)),
        Wait::Stopping(p) => alone(4, stop_part(p)),
        Wait::Reading(q) => alone(5, Part::receiving(0, q)),
    }
}

// ---- Numbers as a wait; a code that stands for nothing is read as the last of its table
// The request is read before the match: read in each arm, it costs 51 instructions of the 1,426 of an exported call.

// No From<u8> for Ifs: phy knows no code that stands for nothing. That it is read as the last one is this layout's rule.
#[tactic(auto, unfolding(crate::specs::Parts::ifs_at))]
fn ifs_at(code: u8) -> Ifs
    ensures { result ≡ ifs_at code }
{
    match code {
        0 => Ifs::Aifs,
        1 => Ifs::Sifs,
        _ => Ifs::Lifs,
    }
}

fn rx_at(p: Part) -> RxTask
    ensures { result ≡ rx_at p }
{
    RxTask {
        token: p.task.token,
        buffer: p.task.buffer,
    }
}

fn ack_at(p: Part) -> AwaitedAck
    ensures { result ≡ ack_at p }
{
    AwaitedAck {
        task: p.task,
        number: p.number,
        time: p.time,
    }
}

#[tactic(auto, unfolding(crate::specs::Parts::asked_at))]
fn asked_at(p: Part) -> Asked
    ensures { result ≡ asked_at p p.code }
{
    let task = p.task;
    match p.code {
        0 => Asked::Idle,
        1 => Asked::AfterWindow(rx_at(p)),
        2 => Asked::AfterAckWindow(task, p.time),
        3 => Asked::Receiving(rx_at(p), ifs_at(p.spacing)),
        4 => Asked::Sending(task),
        5 => Asked::SendingAck(ifs_at(p.spacing)),
        _ => Asked::ReceivingAck(ack_at(p)),
    }
}

#[tactic(auto, unfolding(crate::specs::Parts::left_at))]
fn left_at(p: Part) -> Left
    ensures { result ≡ left_at p p.code }
{
    let task = p.task;
    match p.code {
        0 => Left::Off,
        1 => Left::Receiving(rx_at(p)),
        2 => Left::Sending(task),
        3 => Left::SendingAck,
        _ => Left::ReceivingAck(ack_at(p)),
    }
}

#[tactic(auto, unfolding(crate::specs::Parts::next_at))]
fn next_at(p: Part) -> Next
    ensures { result ≡ next_at p p.code }
{
    let task = p.task;
    match p.code {
        0 => Next::Off,
        1 => Next::Tx(task, None),
        2 => Next::Tx(task, Some(p.number)),
        _ => Next::Rx(rx_at(p)),
    }
}

#[tactic(auto, unfolding(crate::specs::Parts::transition_at))]
fn transition_at(p: Part) -> Transition
    ensures { result ≡ transition_at p p.code }
{
    let task = p.task;
    match p.code {
        0 => Transition::Rearm(rx_at(p)),
        1 => Transition::AckTurn(rx_at(p), ifs_at(p.spacing)),
        _ => Transition::AckWait(task, p.number),
    }
}

#[tactic(auto, unfolding(crate::specs::Parts::stop_at))]
fn stop_at(p: Part) -> Stop
    ensures { result ≡ stop_at p p.code }
{
    match p.code {
        0 => Stop::Frame(rx_at(p)),
        1 => Stop::Outbound(rx_at(p)),
        2 => Stop::Ack(ack_at(p)),
        _ => Stop::AckAgain(ack_at(p)),
    }
}

#[tactic(auto, unfolding(crate::specs::Parts::wait_at))]
pub fn wait_at(p: Parts) -> Wait
    ensures { result ≡ wait_at p p.kind }
{
    match p.kind {
        0 => Wait::Asking(asked_at(p.case)),
        1 => Wait::Entering(Transition::Request(left_at(p.case), next_at(p.next))),
        2 => Wait::Entering(transition_at(p.case)),
        3 => Wait::Listening(rx_at(p.case)),
        4 => Wait::Stopping(stop_at(p.case)),
        _ => Wait::Reading(rx_at(p.case)),
    }
}
