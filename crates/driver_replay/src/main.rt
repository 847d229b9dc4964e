// Replays the records of standard input, 64 bytes each, over the driver service with its waiting line, and prints a line of 122 bytes for
// each call and each dump. docs/REPLAY-FORMAT.md has the columns.
#![tactic(auto)]

mod calls;
mod columns;
mod replies;

use columns::Record;
use radio_frame::Settings;
use refusals::Refusal;
use service::ServiceCall;
use std::io::{self, ErrorKind};
use tasks::{Asked, Reply, State, Wait};
use waiting_line::{DRIVER_CHANNEL_CAPACITY, Line, Place, RequestRecord};

// 33 buffers of 144 bytes: one more than the most that a start accepts.
const POOL: usize = 4752;

// The state and the line that the last call left, the pool, and how many bytes of it are lent. An array with a length beside it: the
// memory is fixed, with no heap, and what is lent may be shorter than the pool.
#[derive(Drop)]
struct Session {
    state: State,
    run: [RequestRecord; DRIVER_CHANNEL_CAPACITY],
    pool: [u8; POOL],
    length: usize,
}

impl Session {
    // Before the first accepted start the settings are none that are accepted, so that each call is refused by them, as it has to be.
    fn new() -> Session {
        Session {
            state: State {
                set: Settings::default(),
                wait: Wait::Asking(Asked::Idle),
            },
            run: [RequestRecord { place: Place::Free }; DRIVER_CHANNEL_CAPACITY],
            pool: [0; POOL],
            length: 0,
        }
    }

    // The first bytes of the pool: so many, or all.
    fn lent(&mut self, length: usize) -> &mut [u8] {
        &mut self.pool[..length.min(POOL)]
    }

    // A refused start leaves the session as it was. The run is stored where a call is refused too, so that what that did to it is seen.
    fn start(&mut self, r: &Record) -> Result<Reply, Refusal> {
        let length = r.pool_length();
        let mut run = self.run;
        let told = driver_service::start_on(r.settings(), &mut run, self.lent(length));
        self.run = run;
        let (state, reply) = told?;
        self.state = state;
        self.length = length;
        Ok(reply)
    }

    fn call(&mut self, c: ServiceCall) -> Result<Reply, Refusal> {
        let mut run = self.run;
        let told = driver_service::step_on(self.state, &mut run, self.lent(self.length), c);
        self.run = run;
        let (state, reply) = told?;
        self.state = state;
        Ok(reply)
    }

    // Writes up to 16 bytes, and nothing past the pool's end.
    fn write(&mut self, r: &Record) {
        let d = r.d().to_be_bytes();
        let e = r.e().to_be_bytes();
        let bytes = d.iter().chain(&e).take(r.b().into());
        for (place, byte) in self.pool.iter_mut().skip(r.a() as usize).zip(bytes) {
            *place = *byte;
        }
    }

    // What a start or a call came to; none of another record.
    fn outcome(&mut self, r: &Record) -> Option<Result<Reply, Refusal>> {
        match r.kind() {
            's' => Some(self.start(r)),
            _ => Some(self.call(r.call()?)),
        }
    }

    fn record(&mut self, rt: &impl Print, r: &Record) -> io::Result<()> {
        if let Some(o) = self.outcome(r) {
            return replies::print(rt, r.kind(), o);
        }
        match r.kind() {
            'l' => self.length = r.pool_length(),
            'w' => self.write(r),
            'z' => self.pool = [0; POOL],
            'd' => {
                let bytes = util::bytes_at::<48>(&self.pool, r.a() as usize);
                replies::dump(rt, r.kind(), r.a(), &bytes)?;
            }
            'L' => {
                let line = line_bytes::encode(&Line::from_run(&self.run));
                let bytes = util::bytes_at::<48>(&line, r.a() as usize);
                replies::dump(rt, r.kind(), r.a(), &bytes)?;
            }
            'a' => {
                let set = self.state.set;
                let place = radio_frame::frame_start(set, set.ack_buffer);
                let bytes = util::bytes_at::<3>(&self.pool, place as usize);
                replies::dump(rt, r.kind(), place, &bytes)?;
            }
            _ => println!(rt; "unknown record")?,
        }
        Ok(())
    }
}

// The input ends where fewer bytes than a record's are left. `for` with `break` is the form that the language has for a loop that ends
// with its input. (The loop of leaf_vectors is alike; one for both would take size, bound and step from each.)
fn replay(rt: &impl Print, input: &mut impl io::Read) -> io::Result<()> {
    let mut session = Session::new();
    let mut line = [0u8; 64];
    for _ in 0..u64::MAX {
        match input.read_exact(&mut line) {
            Err(e) if e.kind() == ErrorKind::UnexpectedEof => break,
            read => read?,
        }
        session.record(rt, &Record::from(&line))?;
    }
    Ok(())
}

fn main(rt: HostRuntime) -> io::Result<()> {
    replay(&rt, &mut rt.reader())
}
