// Waits for a transition of the radio (driver.rs).
#![tactic(auto)]

ghost use Rattle.std.specs.Prelude.{◌≡◌};
ghost use Rattle.moves.specs.Move.{told};
ghost use Rattle.entering.specs.Entering.{then_error, fell_back_of, rolled_back_of, entering_of};

use moves::Accepted;
use refusals::Refusal;
use tasks::{
    Answer, Answers, Call, Cause, Left, Next, Response, Slot, State, TaskResult, Transition, TxTask,
};

// The answer that leaving owes, if any, then the error of the request that could not be entered.
#[tactic(auto, unfolding(crate::specs::Entering::then_error))]
fn then_error(owed: Option<Answer>, q: TxTask, cause: Cause) -> Answers
    ensures { result ≡ then_error q cause owed }
{
    let error = Slot::from(q).answer(Response::Error(cause));
    match owed {
        None => Answers::One(error),
        Some(a) => Answers::Two(a, error),
    }
}

// Fallback fits with a Tx only.
#[tactic(auto, unfolding(crate::specs::Entering::fell_back_of, crate::specs::Entering::request_fell_back, moves::specs::Move::guarded_of))]
fn fell_back(
    s: State,
    pool: &[u8],
    e: Transition,
    x: TaskResult,
    cause: Cause,
) -> Result<Accepted, Refusal>
    ensures { told s result ≡ fell_back_of s pool.now x cause e }
{
    let Transition::Request(l, Next::Tx(q, _)) = e else {
        return Err(Refusal::Unfit);
    };
    let owed = results::leave_task(s.set, pool, l, x)?;
    Ok(moves::to_idle(s.set, then_error(owed, q, cause)))
}

// Rollback is on where a reception goes off, and in an ACK turn.
#[tactic(auto, unfolding(crate::specs::Entering::rolled_back_of, crate::specs::Entering::request_rolled_back, crate::specs::Entering::off_rolled_back))]
fn rolled_back(s: State, e: Transition) -> Result<Accepted, Refusal>
    ensures { told s result ≡ rolled_back_of s e }
{
    match e {
        Transition::Request(Left::Receiving(q), Next::Off) | Transition::AckTurn(q, _) => {
            Ok(moves::listen(s.set, q, Answers::None))
        }
        _ => Err(Refusal::Unfit),
    }
}

// A call in a wait for a transition: Entered, Fallback or Rollback.
#[tactic(auto, unfolding(crate::specs::Entering::entering_of))]
pub fn entering(s: State, pool: &[u8], e: Transition, c: Call) -> Result<Accepted, Refusal>
    ensures { told s result ≡ entering_of s pool.now e c }
{
    match c {
        Call::Entered(x, t) => entered::entered(s, pool, e, x, t),
        Call::Fallback(x, y) => fell_back(s, pool, e, x, y),
        Call::Rollback => rolled_back(s, e),
        _ => Err(Refusal::Unfit),
    }
}
