// The slices of an exported call, but for the pool: reading state and line, writing what an accepted call leaves.
#![tactic(auto)]

ghost use Rattle.std.specs.Prelude.{◌≡◌, cond, ok_or, IfOk};
ghost use Rattle.refusals.specs.declared.Refusal.{Refusal};
ghost use Rattle.refusals.specs.Refusals.{number_of};
ghost use Rattle.engine.specs.Step.{outcome_told};
ghost use Rattle.tasks.specs.declared.State.{State};
ghost use Rattle.slices.specs.Slices.{slices_fit, form_ok};
ghost use Rattle.slices.specs.Inner.{read_of, Finished};
ghost use Rattle.util.specs.Bytes.{stored_over};
ghost use Rattle.line_bytes.specs.Layout.{line_at, written_line};

use refusals::Refusal;
use tasks::{Reply, State};
use waiting_line::Line;

#[tactic(auto, unfolding(crate::specs::Slices::slices_fit))]
pub fn slices_fit(state: usize, line: usize, reply: usize) -> bool
    ensures { result ≡ slices_fit state line reply }
{
    state == 64 && line == 96 && reply == 48
}

// The state that the slices hold, unless a length is wrong, and the line, in one that is lent.
#[tactic(auto, using(crate::proofs::Slices::number_of_or), unfolding(crate::specs::Inner::read_of, crate::specs::Slices::form_ok, state_bytes::specs::Valid::decoded_of))]
pub fn read(state: &[u8], line: &[u8], reply: usize, waiting: &mut Line) -> Result<State, Refusal>
    ensures case { result ≡ ok_or (read_of state.now line.now reply) Refusal.Slices }
    ensures refusal { number_of result ≡ cond (form_ok state.now line.now reply) 0 1 }
    ensures line { IfOk result (λ s. waiting.new ≡ line_at line.now) }
{
    if !slices_fit(state.len(), line.len(), reply) {
        return Err(Refusal::Slices);
    }
    let s = state_bytes::decode(state).ok_or(Refusal::Slices)?;
    if !line_bytes::decode(s, line, waiting) {
        return Err(Refusal::Slices);
    }
    Ok(s)
}

// Writes state and reply of an accepted outcome.
pub fn finish(
    outcome: Result<(State, Reply), Refusal>,
    state: &mut [u8],
    reply: &mut [u8],
) -> Result<(), Refusal>
    ensures { (s : State) → Finished (outcome_told s outcome) state.old reply.old (number_of result) state.new reply.new }
{
    let (next, answer) = outcome?;
    let new_state = state_bytes::encode(next);
    let new_reply = reply_bytes::encode(answer);
    util::store(&new_state, state);
    util::store(&new_reply, reply);
    Ok(())
}

// Writes the line into its slice.
pub fn write_line(waiting: &Line, line: &mut [u8])
    ensures { line.new ≡ stored_over (written_line waiting.now) line.old }
{
    let new_line = line_bytes::encode(waiting);
    util::store(&new_line, line);
}
