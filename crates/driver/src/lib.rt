// The waits of the driver service as a total machine: start, and the nine calls on a wait, each made on the state that the last one left
// (driver.rs). driver_service sets the waiting line over it.
#![tactic(auto)]

ghost use Rattle.std.specs.Prelude.{◌≡◌};
ghost use Rattle.moves.specs.Move.{told};
ghost use Rattle.engine.specs.Step.{wait_move, move_of, outcome_told, written_by};
ghost use Rattle.driver.specs.Promises.{Stepped, Started, RefusedAgain, idle_of};

use moves::Accepted;
use radio_frame::Settings;
use refusals::Refusal;
use tasks::{Answers, Asked, Call, Reply, State, Wait};

// What the wait does with the call.
#[tactic(auto, unfolding(engine::specs::Step::wait_move))]
fn wait_move(s: State, pool: &[u8], c: Call) -> Result<Accepted, Refusal>
    ensures { told s result ≡ wait_move s pool.now c s.wait }
{
    match s.wait {
        Wait::Asking(a) => asking::asking(s, pool, a, c),
        Wait::Entering(e) => entering::entering(s, pool, e, c),
        Wait::Listening(q) => listening::listening(s, q, c),
        Wait::Stopping(p) => stopping::stopping(s, p, c),
        Wait::Reading(q) => reading::reading(s, pool, q, c),
    }
}

// Refusals 2 to 4 before all others.
#[tactic(auto, unfolding(engine::specs::Step::move_of, moves::specs::Move::guarded_of))]
fn checked_move(s: State, pool: &[u8], c: Call) -> Result<Accepted, Refusal>
    ensures { told s result ≡ move_of s pool.now c }
{
    radio_frame::check_settings(s.set, pool.len())?;
    wait_move(s, pool, c)
}

// Writes the number of an acknowledgement into the ACK buffer's frame, if there is one to write.
#[tactic(auto, unfolding(engine::specs::Step::written_by))]
fn write_number(set: Settings, pool: &mut [u8], number: Option<u8>)
    ensures { pool.new ≡ written_by set pool.old number }
{
    if let Some(k) = number {
        let at = radio_frame::frame_start(set, set.ack_buffer);
        ack::set_sequence_number(pool, at, k);
    }
}

// One call on a state and the pool: the next state and the reply.
pub fn step(s: State, pool: &mut [u8], c: Call) -> Result<(State, Reply), Refusal>
    ensures { Stepped s pool.old c (outcome_told s result) pool.new }
{
    let m = checked_move(s, pool, c)?;
    write_number(s.set, pool, m.number);
    Ok((m.state, m.reply))
}

// The idle state of settings: an accepted start returns it. A refused one returns no state; on this one the same pool is refused again.
#[tactic(auto, using(crate::proofs::Promises::refused_again))]
pub fn idle(set: Settings) -> State
    ensures value { result ≡ idle_of set }
    ensures again { RefusedAgain set }
{
    State {
        set,
        wait: Wait::Asking(Asked::Idle),
    }
}

// The acknowledgement in its buffer, and the idle state of the settings, unless they are refused; on every list of calls that
// follows, the book is sound.
pub fn start(set: Settings, pool: &mut [u8]) -> Result<(State, Reply), Refusal>
    ensures { Started set pool.old (outcome_told (idle_of set) result) pool.new }
{
    radio_frame::check_settings(set, pool.len())?;
    let at = radio_frame::frame_start(set, set.ack_buffer);
    ack::imm_ack_frame(pool, at);
    let m = moves::to_idle(set, Answers::None);
    Ok((m.state, m.reply))
}
