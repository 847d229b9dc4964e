// The driver service with its waiting line: start, and the eleven calls, each made on the state and the line that the last one left
// (driver.rs).
#![tactic(auto)]

ghost use Rattle.std.specs.Prelude.{◌≡◌, ◌≢◌, ℕ, List, length, take, IfOk, IfErr};
ghost use Rattle.refusals.specs.declared.Refusal.{Refusal};
ghost use Rattle.requests.specs.Requests.{allowed_of};
ghost use Rattle.waiting_line.specs.Line.{allows, earliest_of, waiting};
ghost use Rattle.engine.specs.Refusals.{no_reply};
ghost use Rattle.engine.specs.Actions.{outbound_open};
ghost use Rattle.driver.specs.Promises.{idle_of};
ghost use Rattle.engine.specs.Step.{outcome_told};
ghost use Rattle.service.specs.Service.{is_named, allowed_waits, arrive_of, withdraw_of, take_of, request_of, call_of};
ghost use Rattle.driver_service.specs.Given.{given_of};
ghost use Rattle.driver_service.specs.Promises.{served, ServiceStepped, ServiceStarted};
ghost use Rattle.driver_service.specs.Lent.{lent_outcome, lent_line, lent_pool, lent_start, lent_start_line, lent_start_pool};

use radio_frame::Settings;
use refusals::Refusal;
use service::ServiceCall;
use tasks::{Asked, Call, Reply, Request, State, Stop, Wait};
use waiting_line::{DRIVER_CHANNEL_CAPACITY, Line, RequestRecord};

// What a call on the line returns: the state as it was, no action and no answer.
fn silent(state: State) -> (State, Reply)
    ensures { result ≡ (state, no_reply) }
{
    (state, Reply::default())
}

// ---- Calls on the line (here and below state, line and pool come one by one, as the definitions have them: a struct of the three would be
// taken apart in each clause)

#[tactic(auto, using(crate::proofs::Promises::room), unfolding(service::specs::Service::arrive_of, service::specs::Service::arrive_refusal, service::specs::Service::unless_refused))]
fn arrive(s: State, line: &mut Line, q: Request) -> Result<(State, Reply), Refusal>
    ensures { (pool : List ℕ) → served (outcome_told s result) line.new pool ≡ arrive_of s line.old pool q }
{
    requests::check_arrival(
        s,
        q,
        waiting_line::has_buffer(line.requests(), q.buffer),
        line.is_full(),
        waiting_line::has_token(line.requests(), q.token),
    )?;
    line.push(q);
    Ok(silent(s))
}

// The stop that OutboundSeen asked for, or the ask after its window ended, is open.
fn is_outbound_open(w: Wait) -> bool
    ensures { result ≡ outbound_open w }
{
    matches!(
        w,
        Wait::Asking(Asked::AfterWindow(_)) | Wait::Stopping(Stop::Outbound(_))
    )
}

#[tactic(auto, unfolding(service::specs::Service::is_named))]
fn is_named(s: State, line: &Line, token: u32) -> bool
    ensures { result ≡ is_named s line.now token }
{
    is_outbound_open(s.wait) && line.is_earliest_tx(token)
}

#[tactic(auto, unfolding(service::specs::Service::withdraw_of, service::specs::Service::withdraw_refusal, service::specs::Service::unless_refused))]
fn withdraw(s: State, line: &mut Line, token: u32) -> Result<(State, Reply), Refusal>
    ensures { (pool : List ℕ) → served (outcome_told s result) line.new pool ≡ withdraw_of s line.old pool token }
{
    if !waiting_line::has_token(line.requests(), token) || is_named(s, line, token) {
        return Err(Refusal::TokenWaits);
    }
    line.withdraw(token);
    Ok(silent(s))
}

// ---- Calls that a wait is given

// The earliest arrival that the wait allows leaves the line.
#[tactic(auto, using(waiting_line::proofs::Laws::none_leaves), unfolding(service::specs::Service::take_of))]
fn take(s: State, line: &mut Line, pool: &[u8], a: Asked) -> Result<(State, Reply), Refusal>
    ensures { served (outcome_told s result) line.new pool.now ≡ take_of s line.old pool.now a (earliest_of (allows (allowed_of a)) line.old) }
{
    let Some(q) = line.take(requests::allowed_in(a)) else {
        return Err(Refusal::NotAllowed);
    };
    let m = asking::taken(s.set, pool, a, q);
    Ok((m.state, m.reply))
}

#[tactic(auto, unfolding(service::specs::Service::request_of))]
fn request(s: State, line: &mut Line, pool: &[u8]) -> Result<(State, Reply), Refusal>
    ensures { served (outcome_told s result) line.new pool.now ≡ request_of s line.old pool.now s.wait }
{
    match s.wait {
        Wait::Asking(a) => take(s, line, pool, a),
        _ => Err(Refusal::Unfit),
    }
}

// Whether the line holds an arrival that the wait allows.
#[tactic(auto, unfolding(service::specs::Service::allowed_waits))]
fn is_allowed_waiting(line: &Line, w: Wait) -> bool
    ensures { result ≡ allowed_waits line.now w }
{
    match w {
        Wait::Asking(a) => line.has_allowed(requests::allowed_in(a)),
        _ => false,
    }
}

// The call that the wait is given, unless the line bars it; a call on the line, and Request, are none.
#[tactic(auto, unfolding(crate::specs::Given::given_of))]
fn given(line: &Line, w: Wait, c: ServiceCall) -> Option<Call>
    ensures { result ≡ given_of line.now w c }
{
    match c {
        ServiceCall::None if !is_allowed_waiting(line, w) => Some(Call::None),
        ServiceCall::FrameStart => Some(Call::FrameStart),
        ServiceCall::OutboundSeen(start, cca) if line.names_tx(start, cca) => Some(
            Call::OutboundSeen(start, cca),
        ),
        ServiceCall::Stopped(r) => Some(Call::Stopped(r)),
        ServiceCall::Header(arrived, length) => Some(Call::Header(arrived, length)),
        ServiceCall::Entered(r, entry) => Some(Call::Entered(r, entry)),
        ServiceCall::Fallback(r, cause) => Some(Call::Fallback(r, cause)),
        ServiceCall::Rollback => Some(Call::Rollback),
        _ => None,
    }
}

// ---- A call

// One place at which the driver is called: each has a result of its own on the stack.
#[tactic(auto, unfolding(service::specs::Service::call_of, service::specs::Service::none_of, service::specs::Service::outbound_seen_of, crate::specs::Given::given_of))]
fn call(
    s: State,
    line: &mut Line,
    pool: &mut [u8],
    c: ServiceCall,
) -> Result<(State, Reply), Refusal>
    ensures { served (outcome_told s result) line.new pool.new ≡ call_of s line.old pool.old c }
{
    match c {
        ServiceCall::Arrive(q) => arrive(s, line, q),
        ServiceCall::Withdraw(token) => withdraw(s, line, token),
        ServiceCall::Request => request(s, line, pool),
        _ => driver::step(s, pool, given(line, s.wait, c).ok_or(Refusal::Unfit)?),
    }
}

// One call on a state, a line and the pool.
pub fn step(
    s: State,
    line: &mut Line,
    pool: &mut [u8],
    c: ServiceCall,
) -> Result<(State, Reply), Refusal>
    ensures { ServiceStepped s line.old pool.old c (outcome_told s result) line.new pool.new }
{
    radio_frame::check_settings(s.set, pool.len())?;
    call(s, line, pool, c)
}

// The idle state of the settings and an empty line, unless the settings are refused; on every list of calls that follows, the book is
// sound.
pub fn start(set: Settings, line: &mut Line, pool: &mut [u8]) -> Result<(State, Reply), Refusal>
    ensures { ServiceStarted set line.old pool.old (outcome_told (idle_of set) result) line.new pool.new }
{
    let idle = driver::start(set, pool)?;
    line.clear();
    Ok(idle)
}

// ---- The line as a lent run of records; another number of them than four is refused by 1. `step_on` and `start_on` have one form: an
// inner function that takes `step` or `start` as a closure over line and pool was tried. It proved, but its contract, which must name what
// the closure gets and what it leaves, is longer than both bodies, and with it the clauses of the two stayed open.

fn lent_line(run: &[RequestRecord]) -> Result<Line, Refusal>
    ensures ok { IfOk result (λ line. (length run.now ≡ 4) × (line ≡ take 4 (waiting run.now))) }
    ensures err { IfErr result (λ refusal. (length run.now ≢ 4) × (refusal ≡ Refusal.Slices)) }
{
    if run.len() == DRIVER_CHANNEL_CAPACITY {
        Ok(Line::from_run(run))
    } else {
        Err(Refusal::Slices)
    }
}

// One call on a state, a run of records and the pool.
#[tactic(auto, unfolding(crate::specs::Lent::lent_outcome, crate::specs::Lent::lent_line, crate::specs::Lent::lent_pool), using(crate::proofs::Promises::served_four, crate::proofs::Promises::served_other, refusals::proofs::Refusals::not_zero))]
pub fn step_on(
    s: State,
    run: &mut [RequestRecord],
    pool: &mut [u8],
    c: ServiceCall,
) -> Result<(State, Reply), Refusal>
    ensures outcome { outcome_told s result ≡ lent_outcome s run.old pool.old c }
    ensures line { run.new ≡ lent_line s run.old pool.old c }
    ensures pool { pool.new ≡ lent_pool s run.old pool.old c }
{
    let mut line = lent_line(run)?;
    let told = step(s, &mut line, pool, c)?;
    line.write_run(run);
    Ok(told)
}

// A start on a run of records and the pool.
#[tactic(auto, unfolding(crate::specs::Lent::lent_start, crate::specs::Lent::lent_start_line, crate::specs::Lent::lent_start_pool), using(crate::proofs::Promises::begun_four, crate::proofs::Promises::begun_other, refusals::proofs::Refusals::not_zero))]
pub fn start_on(
    set: Settings,
    run: &mut [RequestRecord],
    pool: &mut [u8],
) -> Result<(State, Reply), Refusal>
    ensures outcome { outcome_told (idle_of set) result ≡ lent_start set run.old pool.old }
    ensures line { run.new ≡ lent_start_line set run.old pool.old }
    ensures pool { pool.new ≡ lent_start_pool set run.old pool.old }
{
    let mut line = lent_line(run)?;
    let told = start(set, &mut line, pool)?;
    line.write_run(run);
    Ok(told)
}
