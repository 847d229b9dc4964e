// A reply, and bytes of the pool, as lines of 122 bytes. docs/REPLAY-FORMAT.md has the columns.
use phy::Ifs;
use refusals::Refusal;
use std::io;
use tasks::{
    Action, Answer, Answers, Cause, Reply, Response, RxResult, StopListening, TaskDirection,
    Timestamp,
};

// The columns of an action; 0 or '-' where it has no such thing.
#[derive(Clone, Copy)]
struct ActionColumns {
    code: u8,
    buffer: u8,
    length: u16,
    flag: bool,
    start: u8,
    time: u64,
    spacing: u8,
    rollback: bool,
}

const NOTHING: ActionColumns = ActionColumns {
    code: b'-',
    buffer: 0,
    length: 0,
    flag: false,
    start: b'-',
    time: 0,
    spacing: b'-',
    rollback: false,
};

// The columns of an answer; 0 or '-' where it has no such thing.
#[derive(Clone, Copy)]
struct AnswerColumns {
    code: u8,
    token: u32,
    buffer: u8,
    length: u16,
    start: u8,
    time: u64,
    quality: u8,
}

const NO_ANSWER: AnswerColumns = AnswerColumns {
    code: b'-',
    token: 0,
    buffer: 0,
    length: 0,
    start: b'-',
    time: 0,
    quality: 0,
};

fn start_columns(start: Timestamp) -> (u8, u64) {
    match start {
        Timestamp::BestEffort => (b'b', 0),
        Timestamp::Scheduled(time) => (b't', time),
    }
}

fn spacing_column(spacing: Option<Ifs>) -> u8 {
    match spacing {
        None => b'n',
        Some(Ifs::Aifs) => b'a',
        Some(Ifs::Sifs) => b's',
        Some(Ifs::Lifs) => b'l',
    }
}

fn stop_columns(how: StopListening) -> ActionColumns {
    let (code, time, flag) = match how {
        StopListening::Now => (b's', 0, false),
        StopListening::At(time) => (b't', time, false),
        StopListening::Before(time, seen) => (b'b', time, seen),
    };
    ActionColumns {
        code,
        time,
        flag,
        ..NOTHING
    }
}

fn action_columns(action: Action) -> ActionColumns {
    let code = match action {
        Action::Nothing => b'-',
        Action::ReceiveRequest => b'i',
        Action::TryReceiveRequest(TaskDirection::Any) => b'q',
        Action::TryReceiveRequest(TaskDirection::Outbound) => b'o',
        Action::Listen => b'l',
        Action::ReadHeader => b'h',
        Action::Stop(how) => return stop_columns(how),
        Action::Tx(buffer, length, flag, at, ifs, rollback) => {
            let (start, time) = start_columns(at);
            return ActionColumns {
                code: b'T',
                buffer,
                length,
                flag,
                start,
                time,
                spacing: spacing_column(ifs),
                rollback,
            };
        }
        Action::Rx(buffer, at, ifs, rollback) => {
            let (start, time) = start_columns(at);
            return ActionColumns {
                code: b'R',
                buffer,
                start,
                time,
                spacing: spacing_column(ifs),
                rollback,
                ..NOTHING
            };
        }
        Action::Off(rollback) => {
            return ActionColumns {
                code: b'O',
                rollback,
                ..NOTHING
            };
        }
    };
    ActionColumns { code, ..NOTHING }
}

fn answer_columns(answer: Answer) -> AnswerColumns {
    let (code, length, start, time, quality) = match answer.response {
        Response::Sent(time) => (b's', 0, b'-', time, 0),
        Response::Nack(time) => (b'n', 0, b'-', time, 0),
        Response::Error(Cause::Task) => (b't', 0, b'-', 0, 0),
        Response::Error(Cause::Scheduling(at)) => {
            let (start, time) = start_columns(at);
            (b'e', 0, start, time, 0)
        }
        Response::Received(RxResult::Frame(length, time, quality)) => {
            (b'f', length, b'-', time, quality)
        }
        Response::Received(RxResult::RxWindowEnded) => (b'w', 0, b'-', 0, 0),
        Response::Received(RxResult::CrcError(time, quality)) => (b'c', 0, b'-', time, quality),
    };
    AnswerColumns {
        code,
        token: answer.token,
        buffer: answer.buffer,
        length,
        start,
        time,
        quality,
    }
}

fn digit(value: u8) -> u8 {
    b"0123456789abcdef"[usize::from(value % 16)]
}

// A line, blank but for what is put into its columns. (By Display and format strings, which were tried, a dump took 16 times the
// instructions, and a reply twice.)
#[derive(Drop)]
struct Columns([u8; 122]);

impl Columns {
    fn new(kind: char) -> Columns {
        let mut line = [b' '; 122];
        line[0] = (u32::from(kind) & 0xff) as u8;
        line[121] = b'\n';
        Columns(line)
    }

    fn letter(&mut self, column: usize, letter: u8) {
        util::put(&mut self.0, column, letter);
    }

    fn flag(&mut self, column: usize, flag: bool) {
        self.letter(column, digit(u8::from(flag)));
    }

    // Two digits for each byte.
    fn digits(&mut self, column: usize, bytes: &[u8]) {
        let (pairs, _) = self.0[column.min(122)..].as_chunks_mut::<2>();
        for (pair, byte) in pairs.iter_mut().zip(bytes) {
            *pair = [digit(*byte / 16), digit(*byte % 16)];
        }
    }

    fn action(&mut self, a: ActionColumns) {
        self.letter(5, a.code);
        self.digits(7, &[a.buffer]);
        self.digits(10, &a.length.to_be_bytes());
        self.flag(15, a.flag);
        self.letter(17, a.start);
        self.digits(19, &a.time.to_be_bytes());
        self.letter(36, a.spacing);
        self.flag(38, a.rollback);
    }

    // An answer, the first from column 40 on, the second 41 further on.
    fn answer(&mut self, second: bool, a: AnswerColumns) {
        let at = if second { 81 } else { 40 };
        self.letter(at, a.code);
        self.digits(at + 2, &a.token.to_be_bytes());
        self.digits(at + 11, &[a.buffer]);
        self.digits(at + 14, &a.length.to_be_bytes());
        self.letter(at + 19, a.start);
        self.digits(at + 21, &a.time.to_be_bytes());
        self.digits(at + 38, &[a.quality]);
    }
}

// Prints the kind of a record, and what a start or a call came to.
pub fn print(rt: &impl Print, kind: char, outcome: Result<Reply, Refusal>) -> io::Result<()> {
    let refusal = refusals::number(outcome.map(|_| ()));
    let reply = outcome.unwrap_or_default();
    let (first, second) = match reply.answers {
        Answers::None => (NO_ANSWER, NO_ANSWER),
        Answers::One(a) => (answer_columns(a), NO_ANSWER),
        Answers::Two(a, b) => (answer_columns(a), answer_columns(b)),
    };
    let mut line = Columns::new(kind);
    line.digits(2, &[refusal]);
    line.action(action_columns(reply.action));
    line.answer(false, first);
    line.answer(true, second);
    rt.write_all(&line.0)
}

// Prints the kind of a record, a place in the pool, and bytes from there on.
pub fn dump(rt: &impl Print, kind: char, place: u32, bytes: &[u8]) -> io::Result<()> {
    let mut line = Columns::new(kind);
    line.digits(2, &place.to_be_bytes());
    line.digits(11, bytes);
    rt.write_all(&line.0)
}
