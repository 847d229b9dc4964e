// What of a state decides a request's refusal (driver.rs).
#![tactic(auto)]

ghost use Rattle.std.specs.Prelude.{◌≡◌, ◌||◌, cond, leb};
ghost use Rattle.refusals.specs.Refusals.{number_of};
ghost use Rattle.requests.specs.Requests.{token_held, buffer_held, tx_length_unfit, allow, allowed_of, start_allowed, not_allowed, request_refusal, arrival_refusal};

use radio_frame::Settings;
use refusals::Refusal;
use tasks::{Allowed, Asked, Request, Starts, State, Task, Timestamp, Wait};

#[tactic(auto, unfolding(crate::specs::Requests::token_held, crate::specs::Requests::slot_has_token))]
fn is_token_held(w: Wait, token: u32) -> bool
    ensures { result ≡ token_held w token }
{
    let p = tasks::pending_requests(w);
    p.first.is_some_and(|h| h.token == token) || p.second.is_some_and(|h| h.token == token)
}

#[tactic(auto, unfolding(crate::specs::Requests::buffer_held, crate::specs::Requests::slot_has_buffer))]
fn is_buffer_held(s: State, buffer: u8) -> bool
    ensures { result ≡ buffer_held s buffer }
{
    let p = tasks::pending_requests(s.wait);
    let is_own = s.set.ack_buffer == buffer || s.set.spare_buffer == buffer;
    let is_first = p.first.is_some_and(|h| h.buffer == buffer);
    is_own || (is_first || p.second.is_some_and(|h| h.buffer == buffer))
}

fn allow(tx: Starts, rx: Starts) -> Allowed
    ensures { result ≡ allow tx rx }
{
    Allowed { tx, rx }
}

// The starts that a wait which asks allows, a row for each wait, as document 01's table has them.
#[tactic(auto, unfolding(crate::specs::Requests::allowed_of))]
pub fn allowed_in(a: Asked) -> Allowed
    ensures { result ≡ allowed_of a }
{
    match a {
        Asked::Idle => allow(Starts::Any, Starts::Any),
        Asked::AfterWindow(_) => allow(Starts::Any, Starts::Never),
        Asked::AfterAckWindow(_, _) => allow(Starts::Any, Starts::BestEffort),
        Asked::Receiving(_, _) => allow(Starts::Any, Starts::BestEffort),
        Asked::Sending(_) => allow(Starts::BestEffort, Starts::BestEffort),
        Asked::SendingAck(_) => allow(Starts::BestEffort, Starts::BestEffort),
        Asked::ReceivingAck(_) => allow(Starts::Any, Starts::BestEffort),
    }
}

#[tactic(auto, unfolding(crate::specs::Requests::start_allowed, crate::specs::Requests::timed))]
fn is_start_allowed(allowed: Starts, start: Timestamp) -> bool
    ensures { result ≡ start_allowed allowed start }
{
    match (allowed, start) {
        (Starts::Never, _) => false,
        (Starts::BestEffort, Timestamp::Scheduled(_)) => false,
        (Starts::BestEffort, Timestamp::BestEffort) => true,
        (Starts::Any, _) => true,
    }
}

// Whether a request's direction or start is not among those allowed.
#[tactic(auto, unfolding(crate::specs::Requests::not_allowed))]
pub fn is_request_not_allowed(w: Allowed, q: Request) -> bool
    ensures { result ≡ not_allowed w q.start q.task }
{
    match q.task {
        Task::Tx(_, _) => !is_start_allowed(w.tx, q.start),
        Task::Rx => !is_start_allowed(w.rx, q.start),
    }
}

#[tactic(auto, unfolding(crate::specs::Requests::tx_length_unfit))]
fn is_tx_length_unfit(set: Settings, task: Task) -> bool
    ensures { result ≡ tx_length_unfit set task }
{
    match task {
        Task::Tx(n, _) => n < 3 || radio_frame::is_too_long(set, n),
        Task::Rx => false,
    }
}

// The first of refusals 6 to 8 that a request meets, whose buffer a waiting request may hold.
fn check_request(s: State, q: Request, in_line: bool) -> Result<(), Refusal>
    ensures { number_of result ≡ cond (token_held s.wait q.token) 6
        (cond (leb s.set.count q.buffer || (buffer_held s q.buffer || in_line)) 7
        (cond (tx_length_unfit s.set q.task) 8 0)) }
{
    if is_token_held(s.wait, q.token) {
        return Err(Refusal::TokenHeld);
    }
    if s.set.count <= q.buffer || (is_buffer_held(s, q.buffer) || in_line) {
        return Err(Refusal::BufferHeld);
    }
    if is_tx_length_unfit(s.set, q.task) {
        return Err(Refusal::TxLength);
    }
    Ok(())
}

// The first of refusals 6 to 9 that a request meets in a state that asks.
#[tactic(auto, unfolding(crate::specs::Requests::request_refusal))]
pub fn check_asked(s: State, a: Asked, q: Request) -> Result<(), Refusal>
    ensures { number_of result ≡ request_refusal s a q }
{
    check_request(s, q, false)?;
    if is_request_not_allowed(allowed_in(a), q) {
        return Err(Refusal::NotAllowed);
    }
    Ok(())
}

// The first of refusals 6 to 8, 12 and 13 that an arrival meets: with what the line says, whether it holds the buffer, is full, and
// holds the token.
#[tactic(auto, unfolding(crate::specs::Requests::arrival_refusal))]
pub fn check_arrival(
    s: State,
    q: Request,
    buffer: bool,
    full: bool,
    token: bool,
) -> Result<(), Refusal>
    ensures { number_of result ≡ arrival_refusal s q buffer full token }
{
    check_request(s, q, buffer)?;
    if full {
        return Err(Refusal::LineFull);
    }
    if token {
        return Err(Refusal::TokenWaits);
    }
    Ok(())
}
