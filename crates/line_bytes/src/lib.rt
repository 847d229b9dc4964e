// The waiting line as 96 bytes (docs/LAYOUTS.md): writing it, and reading it where the bytes are those of a line that fits the state.
#![tactic(auto)]

ghost use Rattle.std.specs.Prelude.{◌≡◌};
ghost use Rattle.state_bytes.specs.Valid.{same_list};
ghost use Rattle.line_bytes.specs.Layout.{start_fields, task_fields, record_bytes, written_line, start_at, task_at, request_at, line_at};
ghost use Rattle.line_bytes.specs.Valid.{request_fits, line_fits, holds_line};

use tasks::{Request, State, Task, Timestamp};
use waiting_line::{DRIVER_CHANNEL_CAPACITY, Line};

// A start as numbers.
#[derive(Clone, Copy)]
pub struct StartFields {
    pub code: u8,
    pub time: u64,
}

// A task as numbers.
#[derive(Clone, Copy)]
pub struct TaskFields {
    pub kind: u8,
    pub cca: u8,
    pub length: u16,
}

// ---- Writing, by functions of the definitions' names, as reading below: each has one caller, which a From would hide

#[tactic(auto, unfolding(crate::specs::Layout::start_fields))]
fn start_fields(start: Timestamp) -> StartFields
    ensures { result ≡ start_fields start }
{
    match start {
        Timestamp::BestEffort => StartFields { code: 0, time: 0 },
        Timestamp::Scheduled(t) => StartFields { code: 1, time: t },
    }
}

#[tactic(auto, unfolding(crate::specs::Layout::task_fields))]
fn task_fields(task: Task) -> TaskFields
    ensures { result ≡ task_fields task }
{
    match task {
        Task::Tx(n, c) => TaskFields {
            kind: 1,
            cca: u8::from(c),
            length: n,
        },
        Task::Rx => TaskFields {
            kind: 2,
            cca: 0,
            length: 0,
        },
    }
}

#[tactic(auto, using(util::proofs::Numbers::le_bytes_4, util::proofs::Numbers::le_bytes_8))]
fn record_bytes(q: Request) -> [u8; 24]
    ensures { result ≡ record_bytes q }
{
    let start = start_fields(q.start);
    let task = task_fields(q.task);
    let mut bytes = [0; 24];
    bytes[0] = task.kind;
    bytes[1] = start.code;
    bytes[2] = task.cca;
    bytes[3] = q.buffer;
    bytes[4..8].copy_from_slice(&q.token.to_le_bytes());
    bytes[8..16].copy_from_slice(&start.time.to_le_bytes());
    bytes[16..18].copy_from_slice(&task.length.to_le_bytes());
    bytes
}

// The bytes that a line is written as.
#[tactic(auto, using(crate::proofs::Loops::all_written))]
pub fn encode(line: &Line) -> [u8; 96]
    ensures { result ≡ written_line line.now }
{
    // By index: what is written through a zip of `iter_mut`, or through chunks, no clause says.
    // Tried too: the records by `array::from_fn`, each by a function of the record at a place. That function is proved, but the search left
    // this one's goal open, also with a lemma of an array that a closure makes (as hex_digits has one).
    let mut records = [[0; 24]; DRIVER_CHANNEL_CAPACITY];
    for (i, q) in line.requests().iter().enumerate() {
        records[i] = record_bytes(*q);
    }
    let mut bytes = [0; 96];
    bytes.copy_from_slice(records.as_flattened());
    bytes
}

// ---- Reading

// A code that stands for nothing is read as the last of its kind.
#[tactic(auto, unfolding(crate::specs::Layout::start_at))]
fn start_at(code: u8, time: u64) -> Timestamp
    ensures { result ≡ start_at code time }
{
    if code == 0 {
        Timestamp::BestEffort
    } else {
        Timestamp::Scheduled(time)
    }
}

#[tactic(auto, unfolding(crate::specs::Layout::task_at))]
fn task_at(kind: u8, cca: u8, length: u16) -> Task
    ensures { result ≡ task_at kind cca length }
{
    if kind == 1 {
        Task::Tx(length, cca == 1)
    } else {
        Task::Rx
    }
}

// The request of the record that the bytes begin with: fields, each from its own place, so no loop.
#[tactic(auto, unfolding(crate::specs::Layout::request_at))]
fn request_at(bytes: &[u8]) -> Request
    ensures { result ≡ request_at bytes.now }
{
    let start = start_at(util::byte_at(bytes, 1), util::u64_at(bytes, 8));
    let task = task_at(
        util::byte_at(bytes, 0),
        util::byte_at(bytes, 2),
        util::u16_at(bytes, 16),
    );
    Request {
        token: util::u32_at(bytes, 4),
        start,
        buffer: util::byte_at(bytes, 3),
        task,
    }
}

// The requests of the records before the first one that is free, in a line that is lent: a returned one would be moved, 136 bytes each time.
#[tactic(auto, unfolding(crate::specs::Layout::line_at), using(crate::proofs::Loops::reading))]
fn read_line(bytes: &[u8], line: &mut Line)
    ensures { line.new ≡ line_at bytes.now }
{
    line.clear();
    for record in bytes.chunks(24).take(DRIVER_CHANNEL_CAPACITY) {
        if util::byte_at(record, 0) == 0 {
            break;
        }
        line.push(request_at(record));
    }
}

// ---- Which bytes are those of a line that fits the state

// A request passes what an arrival has to pass, with those behind it in the line.
#[tactic(auto, unfolding(crate::specs::Valid::request_fits))]
fn request_fits(s: State, q: Request, behind: &[Request]) -> bool
    ensures { result ≡ request_fits s q behind.now }
{
    let buffer = waiting_line::has_buffer(behind, q.buffer);
    let token = waiting_line::has_token(behind, q.token);
    requests::check_arrival(s, q, buffer, false, token).is_ok()
}

#[tactic(auto, unfolding(crate::specs::Valid::line_fits), using(crate::proofs::Loops::fits_turn))]
fn line_fits(s: State, requests: &[Request]) -> bool
    ensures { result ≡ line_fits s requests.now }
{
    for (i, q) in requests.iter().enumerate() {
        if !request_fits(s, *q, &requests[i + 1..]) {
            return false;
        }
    }
    true
}

#[tactic(auto, using(state_bytes::proofs::Same::same_list_is))]
fn is_written_as(bytes: &[u8], line: &Line) -> bool
    ensures { result ≡ same_list (written_line line.now) bytes.now }
{
    encode(line).as_slice() == bytes
}

// Reads the line that bytes are written as, and says whether it fits the state; of other bytes (refusal 1) no.
#[tactic(auto, unfolding(crate::specs::Valid::holds_line))]
pub fn decode(s: State, bytes: &[u8], line: &mut Line) -> bool
    ensures held { result ≡ holds_line s bytes.now }
    ensures line { line.new ≡ line_at bytes.now }
{
    read_line(bytes, line);
    line_fits(s, line.requests()) && is_written_as(bytes, line)
}
