// The waiting line: requests that have arrived and wait until the service asks for one (DRIVER_CHANNEL_CAPACITY of driver.rs).
#![tactic(auto)]

ghost use Rattle.std.specs.Prelude.{◌≡◌, ◌<◌, ◌≤◌, [], ◌∷◌, ◌++◌, cond, length, leb, take, slice_get, remove, position, option_copied};
ghost use Rattle.waiting_line.specs.Line.{waiting, records, place_for, allows, has_token, has_buffer, is_tx, any_passes, earliest_of, without_earliest, names_tx, is_token};

use std::marker::Model;
use tasks::{Allowed, Request, Task, Timestamp};

pub const DRIVER_CHANNEL_CAPACITY: usize = 4;

// A place of the line. (No Option: document 02, E7, makes a place that is held, but not yet filled, a third case of this lent type.)
#[derive(Clone, Copy)]
pub enum Place {
    Free,
    Waits(Request),
}

// A record of the lent line.
#[derive(Clone, Copy)]
pub struct RequestRecord {
    pub place: Place,
}

// The requests that wait, in the order of their arrival: an array and how many of it count, as the memory is fixed and there is no heap.
// Behind them stands UNUSED, so that a line of the same requests is the same line, and may be copied.
#[derive(Clone, Copy)]
pub struct Line {
    requests: [Request; DRIVER_CHANNEL_CAPACITY],
    len: usize,
}

// What stands at a place where no request waits.
const UNUSED: Request = Request {
    token: 0,
    start: Timestamp::BestEffort,
    buffer: 0,
    task: Task::Rx,
};

// Clauses see the list of the requests that wait.
impl Model for Line {
    ghost use Rattle.std.specs.Prelude.{List, ◌-◌, ◌≡◌, ◌≤◌, length, take, drop};
    ghost use Rattle.std.proofs.Common.{arith, take-append-drop, length-take-le};
    ghost use Rattle.tasks.specs.declared.Request.{Request};
    ghost use Rattle.waiting_line.specs.Unused.{unused, filled};

    ghost Value = { List Request };

    ghost view = { λ l. take l.len l.requests };

    ghost invariant = { λ l. (l.len ≤ 4) × (length l.requests ≡ 4) × (drop l.len l.requests ≡ unused (4 - l.len)) };

    ghost inverse = { λ qs. record { requests = filled qs; len = length qs } };

    ghost inverse_ok = { λ l h i.
        let n : length (take l.len l.requests) ≡ l.len = length-take-le l.len l.requests (omega (arith, h.0, h.1)) in
        let xs : filled (take l.len l.requests) ≡ l.requests = rw (n, ← h.2) (take-append-drop l.len l.requests) in
        record { requests = xs i; len = n i } };
}

impl Line {
    pub fn new() -> Line
        ensures { result ≡ [] }
    {
        Line {
            requests: [UNUSED; DRIVER_CHANNEL_CAPACITY],
            len: 0,
        }
    }

    // No request waits any more.
    pub fn clear(&mut self)
        ensures { self.new ≡ [] }
    {
        *self = Line::new();
    }

    pub fn requests(&self) -> &[Request]
        ensures value { result.now ≡ self.now }
        ensures fits { length self.now ≤ 4 }
    {
        &self.requests[..self.len]
    }

    pub fn is_full(&self) -> bool
        ensures { result ≡ leb 4 (length self.now) }
    {
        self.requests().len() >= DRIVER_CHANNEL_CAPACITY
    }

    // Whether an arrival that is allowed waits.
    pub fn has_allowed(&self, w: Allowed) -> bool
        ensures { result ≡ any_passes (allows w) self.now }
    {
        self.requests().iter().any(|q| is_allowed(w, *q))
    }

    // One more request at the end, unless four wait.
    pub fn push(&mut self, q: Request)
        ensures { self.new ≡ cond (leb 4 (length self.old)) self.old (self.old ++ q ∷ []) }
    {
        if self.len < DRIVER_CHANNEL_CAPACITY {
            self.requests[self.len] = q;
            self.len += 1;
        }
    }

    fn place_of(&self, token: u32) -> Option<usize>
        ensures { result ≡ position (has_token token) self.now }
    {
        self.requests().iter().position(|q| q.token == token)
    }

    fn place_allowed(&self, w: Allowed) -> Option<usize>
        ensures { result ≡ position (allows w) self.now }
    {
        self.requests().iter().position(|q| is_allowed(w, *q))
    }

    // The request at a place leaves; those behind it move up.
    fn leave(&mut self, i: usize) -> Request
        requires { i < length self.old }
        ensures value { Some result ≡ slice_get self.old i }
        ensures rest { self.new ≡ remove self.old i }
    {
        let q = self.requests()[i];
        self.requests[i..self.len].rotate_left(1);
        self.len -= 1;
        self.requests[self.len] = UNUSED;
        q
    }

    // The earliest arrival that is allowed leaves.
    #[tactic(auto, using(crate::proofs::Laws::first_found, crate::proofs::Laws::first_leaves, crate::proofs::Laws::none_found, crate::proofs::Laws::no_place))]
    pub fn take(&mut self, w: Allowed) -> Option<Request>
        ensures value { result ≡ earliest_of (allows w) self.old }
        ensures rest { self.new ≡ without_earliest (allows w) self.old }
    {
        let i = self.place_allowed(w)?;
        Some(self.leave(i))
    }

    // The request that has the token leaves.
    #[tactic(auto, using(crate::proofs::Laws::first_leaves, crate::proofs::Laws::no_place))]
    pub fn withdraw(&mut self, token: u32)
        ensures { self.new ≡ without_earliest (has_token token) self.old }
    {
        if let Some(i) = self.place_of(token) {
            self.leave(i);
        }
    }

    #[tactic(auto, unfolding(requests::specs::Requests::not_allowed, requests::specs::Requests::start_allowed))]
    fn earliest_tx(&self) -> Option<&Request>
        ensures { option_copied result ≡ earliest_of is_tx self.now }
    {
        self.requests()
            .iter()
            .find(|q| matches!(q.task, Task::Tx(_, _)))
    }

    // Whether the earliest Tx has the start and the flag.
    #[tactic(auto, unfolding(crate::specs::Line::names_tx, crate::specs::Line::same_start_of, crate::specs::Line::same_flag_of))]
    pub fn names_tx(&self, start: Timestamp, cca: bool) -> bool
        ensures { result ≡ names_tx start cca (earliest_of is_tx self.now) }
    {
        self.earliest_tx().is_some_and(|q| q.start == start
            && matches!(q.task, Task::Tx(_, flag) if flag == cca))
    }

    // Whether the earliest Tx has the token.
    #[tactic(auto, unfolding(crate::specs::Line::is_token))]
    pub fn is_earliest_tx(&self, token: u32) -> bool
        ensures { result ≡ is_token token (earliest_of is_tx self.now) }
    {
        self.earliest_tx().is_some_and(|q| q.token == token)
    }

    // What waits in a run of records, in their order; at most four of these requests.
    #[tactic(auto, using(crate::proofs::Laws::placed_more))]
    pub fn from_run(run: &[RequestRecord]) -> Line
        ensures { result ≡ take 4 (waiting run.now) }
    {
        let mut line = Line::new();
        for r in run {
            if let Place::Waits(q) = r.place {
                line.push(q);
            }
        }
        line
    }

    // What stands at a place of a run that the line is written into.
    fn place(&self, i: usize) -> Place
        ensures { result ≡ place_for (slice_get self.now i) }
    {
        match self.requests().get(i) {
            Some(q) => Place::Waits(*q),
            None => Place::Free,
        }
    }

    // Writes the line into a run of records: its requests in front, the places after them free.
    #[tactic(auto, using(crate::proofs::Laws::record_more, crate::proofs::Laws::length_records, std::proofs::lemmas::List::take_all))]
    pub fn write_run(&self, run: &mut [RequestRecord])
        ensures { run.new ≡ records (length run.old) self.now }
    {
        for (i, r) in run.iter_mut().enumerate() {
            r.place = self.place(i);
        }
    }
}

// Two tests of one line each: a search with the test as its argument would be no shorter.
pub fn has_token(requests: &[Request], token: u32) -> bool
    ensures { result ≡ any_passes (has_token token) requests.now }
{
    requests.iter().any(|q| q.token == token)
}

pub fn has_buffer(requests: &[Request], buffer: u8) -> bool
    ensures { result ≡ any_passes (has_buffer buffer) requests.now }
{
    requests.iter().any(|q| q.buffer == buffer)
}

fn is_allowed(w: Allowed, q: Request) -> bool
    ensures { result ≡ allows w q }
{
    !requests::is_request_not_allowed(w, q)
}
