// The reply as 48 bytes (docs/LAYOUTS.md).
#![tactic(auto)]

ghost use Rattle.std.specs.Prelude.{◌≤◌, ◌≡◌};
ghost use Rattle.reply_bytes.specs.Reply.{spacing_bits, start_time, task_flags, action_of, stop_fields, action_fields, cause_fields, received_fields, response_fields, answer_fields, first_fields, second_fields, written_answer, written_fields, written_reply};

use phy::Ifs;
use tasks::{
    Action, Answer, Answers, Cause, Reply, Response, RxResult, StopListening, TaskDirection,
    Timestamp,
};

// An action as numbers.
#[derive(Clone, Copy)]
pub struct ActionFields {
    pub code: u8,
    pub buffer: u8,
    pub length: u8,
    pub flags: u8,
    pub time: u64,
}

// What a request came to, as numbers.
#[derive(Clone, Copy)]
pub struct CameTo {
    pub code: u8,
    pub length: u8,
    pub time: u64,
    pub quality: u8,
}

// An answer as numbers.
#[derive(Clone, Copy)]
pub struct AnswerFields {
    pub token: u32,
    pub buffer: u8,
    pub response: CameTo,
}

// ---- The action, as functions of the definitions' names: each has one caller, which a From would hide

// An action with nothing but its code. (Constants here and below, not Default: the many uses stay short.)
const PLAIN: ActionFields = ActionFields {
    code: 0,
    buffer: 0,
    length: 0,
    flags: 0,
    time: 0,
};

#[tactic(auto, using(crate::proofs::Spacing::code_fits), unfolding(crate::specs::Reply::spacing_bits))]
fn spacing_bits(s: Option<Ifs>) -> u8
    ensures value { result ≡ spacing_bits s }
    ensures fits { result ≤ 24 }
{
    s.map_or(0, |i| 8 * (1 + u8::from(i)))
}

// The flags and the time of a task that the radio is to begin.
#[tactic(auto, unfolding(crate::specs::Reply::start_bit, crate::specs::Reply::start_time))]
fn task_fields(cca: bool, start: Timestamp, spacing: Option<Ifs>, rollback: bool) -> ActionFields
    ensures { result ≡ action_of 0 0 0 (task_flags cca rollback start spacing) (start_time start) }
{
    let flags = u8::from(cca) + 2 * u8::from(rollback) + spacing_bits(spacing);
    match start {
        Timestamp::BestEffort => ActionFields { flags, ..PLAIN },
        Timestamp::Scheduled(time) => ActionFields {
            flags: flags + 4,
            time,
            ..PLAIN
        },
    }
}

#[tactic(auto, unfolding(crate::specs::Reply::stop_fields))]
fn stop_fields(stop: StopListening) -> ActionFields
    ensures { result ≡ stop_fields stop }
{
    match stop {
        StopListening::Now => ActionFields { code: 5, ..PLAIN },
        StopListening::At(time) => ActionFields {
            code: 6,
            time,
            ..PLAIN
        },
        StopListening::Before(time, cca) => ActionFields {
            code: 7,
            flags: u8::from(cca),
            time,
            ..PLAIN
        },
    }
}

#[tactic(auto, unfolding(crate::specs::Reply::action_fields, crate::specs::Reply::direction_code))]
fn action_fields(a: Action) -> ActionFields
    ensures { result ≡ action_fields a }
{
    match a {
        Action::Nothing => PLAIN,
        Action::ReceiveRequest => ActionFields { code: 1, ..PLAIN },
        Action::TryReceiveRequest(TaskDirection::Any) => ActionFields { code: 2, ..PLAIN },
        Action::TryReceiveRequest(TaskDirection::Outbound) => ActionFields { code: 3, ..PLAIN },
        Action::Listen => ActionFields { code: 4, ..PLAIN },
        Action::Stop(stop) => stop_fields(stop),
        Action::ReadHeader => ActionFields { code: 8, ..PLAIN },
        Action::Tx(buffer, length, cca, start, spacing, rollback) => ActionFields {
            code: 9,
            buffer,
            length: (length % 256) as u8,
            ..task_fields(cca, start, spacing, rollback)
        },
        Action::Rx(buffer, start, spacing, rollback) => ActionFields {
            code: 10,
            buffer,
            ..task_fields(false, start, spacing, rollback)
        },
        Action::Off(rollback) => ActionFields {
            code: 11,
            flags: 2 * u8::from(rollback),
            ..PLAIN
        },
    }
}

// ---- The answers

// A response with nothing but its code.
const BARE: CameTo = CameTo {
    code: 0,
    length: 0,
    time: 0,
    quality: 0,
};

const NO_ANSWER: AnswerFields = AnswerFields {
    token: 0,
    buffer: 0,
    response: BARE,
};

#[tactic(auto, unfolding(crate::specs::Reply::cause_fields, crate::specs::Reply::scheduling_fields))]
fn cause_fields(cause: Cause) -> CameTo
    ensures { result ≡ cause_fields cause }
{
    match cause {
        Cause::Scheduling(Timestamp::BestEffort) => CameTo { code: 3, ..BARE },
        Cause::Scheduling(Timestamp::Scheduled(time)) => CameTo {
            code: 4,
            time,
            ..BARE
        },
        Cause::Task => CameTo { code: 5, ..BARE },
    }
}

#[tactic(auto, unfolding(crate::specs::Reply::received_fields))]
fn received_fields(x: RxResult) -> CameTo
    ensures { result ≡ received_fields x }
{
    match x {
        RxResult::Frame(n, time, k) => CameTo {
            code: 6,
            length: (n % 256) as u8,
            time,
            quality: k,
        },
        RxResult::RxWindowEnded => CameTo { code: 7, ..BARE },
        RxResult::CrcError(time, quality) => CameTo {
            code: 8,
            time,
            quality,
            ..BARE
        },
    }
}

#[tactic(auto, unfolding(crate::specs::Reply::response_fields))]
fn response_fields(x: Response) -> CameTo
    ensures { result ≡ response_fields x }
{
    match x {
        Response::Sent(time) => CameTo {
            code: 1,
            time,
            ..BARE
        },
        Response::Nack(time) => CameTo {
            code: 2,
            time,
            ..BARE
        },
        Response::Error(cause) => cause_fields(cause),
        Response::Received(y) => received_fields(y),
    }
}

#[tactic(auto, unfolding(crate::specs::Reply::answer_fields))]
fn answer_fields(a: Answer) -> AnswerFields
    ensures { result ≡ answer_fields a }
{
    AnswerFields {
        token: a.token,
        buffer: a.buffer,
        response: response_fields(a.response),
    }
}

// The two answers; one that is not there is all 0.
#[tactic(auto, unfolding(crate::specs::Reply::first_fields, crate::specs::Reply::second_fields))]
fn both_fields(x: Answers) -> (AnswerFields, AnswerFields)
    ensures first { result.0 ≡ first_fields x }
    ensures second { result.1 ≡ second_fields x }
{
    match x {
        Answers::None => (NO_ANSWER, NO_ANSWER),
        Answers::One(a) => (answer_fields(a), NO_ANSWER),
        Answers::Two(a, b) => (answer_fields(a), answer_fields(b)),
    }
}

// ---- Bytes

// An answer's 18 bytes.
#[tactic(auto, using(util::proofs::Numbers::le_bytes_4, util::proofs::Numbers::le_bytes_8))]
fn answer_bytes(x: AnswerFields) -> [u8; 18]
    ensures { result ≡ written_answer x }
{
    let mut bytes = [0; 18];
    bytes[0] = x.response.code;
    bytes[1..5].copy_from_slice(&x.token.to_le_bytes());
    bytes[5] = x.buffer;
    bytes[6] = x.response.length;
    bytes[7..15].copy_from_slice(&x.response.time.to_le_bytes());
    bytes[15] = x.response.quality;
    bytes
}

#[tactic(auto, unfolding(crate::specs::Reply::written_fields), using(util::proofs::Numbers::le_bytes_8))]
fn encode_fields(a: ActionFields, x: AnswerFields, y: AnswerFields) -> [u8; 48]
    ensures { result ≡ written_fields a x y }
{
    let mut bytes = [0; 48];
    bytes[0] = a.code;
    bytes[1] = a.buffer;
    bytes[2] = a.length;
    bytes[3] = a.flags;
    bytes[4..12].copy_from_slice(&a.time.to_le_bytes());
    bytes[12..30].copy_from_slice(&answer_bytes(x));
    bytes[30..].copy_from_slice(&answer_bytes(y));
    bytes
}

// The bytes that a reply is written as.
#[tactic(auto, unfolding(crate::specs::Reply::written_reply))]
pub fn encode(r: Reply) -> [u8; 48]
    ensures { result ≡ written_reply r }
{
    let (first, second) = both_fields(r.answers);
    encode_fields(action_fields(r.action), first, second)
}
