// Listening (driver.rs).
#![tactic(auto)]

ghost use Rattle.std.specs.Prelude.{◌≡◌};
ghost use Rattle.moves.specs.Move.{told};
ghost use Rattle.listening.specs.Listening.{stop_before, listening_of};

use moves::Accepted;
use refusals::Refusal;
use tasks::{Call, RxTask, State, Stop, StopListening, Timestamp};

#[tactic(auto, unfolding(crate::specs::Listening::stop_before))]
fn stop_before(start: Timestamp, cca: bool) -> StopListening
    ensures { result ≡ stop_before cca start }
{
    match start {
        Timestamp::BestEffort => StopListening::Now,
        Timestamp::Scheduled(t) => StopListening::Before(t, cca),
    }
}

// A call while listening: FrameStart or OutboundSeen.
#[tactic(auto, unfolding(crate::specs::Listening::listening_of))]
pub fn listening(s: State, q: RxTask, c: Call) -> Result<Accepted, Refusal>
    ensures { told s result ≡ listening_of s q c }
{
    match c {
        Call::FrameStart => Ok(moves::stop(s.set, Stop::Frame(q), StopListening::Now)),
        Call::OutboundSeen(t, f) => Ok(moves::stop(s.set, Stop::Outbound(q), stop_before(t, f))),
        _ => Err(Refusal::Unfit),
    }
}
