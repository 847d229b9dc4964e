// What an exported call or start comes to: the service's, or the refusal where a code stands for nothing.
#![tactic(auto)]

ghost use Rattle.std.specs.Prelude.{◌≡◌, cond, eqb};
ghost use Rattle.refusals.specs.Refusals.{refusal_number};
ghost use Rattle.radio_frame.specs.Settings.{settings_refusal};
ghost use Rattle.driver.specs.Promises.{idle_of};
ghost use Rattle.driver_service.specs.Promises.{served};
ghost use Rattle.engine.specs.Step.{outcome_told};
ghost use Rattle.call_codes.specs.Codes.{settings_of};
ghost use Rattle.outcomes.specs.Outcomes.{or_five, made_of, begun_of};

use call_codes::{ExportedCall, StartNumbers};
use radio_frame::Settings;
use refusals::Refusal;
use tasks::{Reply, State};
use waiting_line::Line;

// Of a code that stands for nothing: 2 to 4 come first, then 5.
#[tactic(auto, unfolding(crate::specs::Outcomes::or_five))]
fn unknown(s: State, pool: usize) -> Refusal
    ensures { refusal_number result ≡ or_five (settings_refusal s.set pool) }
{
    radio_frame::check_settings(s.set, pool)
        .err()
        .unwrap_or(Refusal::Unfit)
}

// A call: the service's, if all its codes stand for something.
#[tactic(auto, unfolding(crate::specs::Outcomes::made_of, crate::specs::Outcomes::unknown_of))]
pub fn made(
    s: State,
    line: &mut Line,
    pool: &mut [u8],
    x: ExportedCall,
) -> Result<(State, Reply), Refusal>
    ensures { served (outcome_told s result) line.new pool.new ≡ made_of s line.old pool.old x }
{
    match x.call() {
        Some(c) => driver_service::step(s, line, pool, c),
        None => Err(unknown(s, pool.len())),
    }
}

// Of a code that stands for nothing at start: 2 comes first, then 3.
fn unknown_start(set: Settings, pool: usize) -> Refusal
    ensures { refusal_number result ≡ cond (eqb (settings_refusal set pool) 2) 2 3 }
{
    match radio_frame::check_settings(set, pool) {
        Err(Refusal::Pool) => Refusal::Pool,
        _ => Refusal::Lengths,
    }
}

// A start: the service's, if its code stands for something.
#[tactic(auto, unfolding(crate::specs::Outcomes::begun_of, crate::specs::Outcomes::unknown_start))]
pub fn begun(n: StartNumbers, line: &mut Line, pool: &mut [u8]) -> Result<(State, Reply), Refusal>
    ensures { served (outcome_told (idle_of (settings_of n)) result) line.new pool.new ≡ begun_of n line.old pool.old }
{
    if n.implicit_broadcast < 2 {
        driver_service::start(n.settings(), line, pool)
    } else {
        Err(unknown_start(n.settings(), pool.len()))
    }
}
