// A call and a start of the driver service on numbers and byte slices: the service's, between reading and writing (docs/LAYOUTS.md).
#![tactic(auto)]

ghost use Rattle.std.specs.Prelude.{◌≡◌};
ghost use Rattle.refusals.specs.Refusals.{number_of};
ghost use Rattle.byte_calls.specs.Calls.{Called};
ghost use Rattle.byte_calls.specs.Start.{StartCalled};

use call_codes::{ExportedCall, StartNumbers};
use refusals::Refusal;
use waiting_line::Line;

// One call over bytes.
pub fn call(
    state: &mut [u8],
    line: &mut [u8],
    reply: &mut [u8],
    pool: &mut [u8],
    x: ExportedCall,
) -> Result<(), Refusal>
    ensures { Called state.old line.old reply.old pool.old x (number_of result) state.new line.new reply.new pool.new }
{
    let mut waiting = Line::new();
    let s = slices::read(state, line, reply.len(), &mut waiting)?;
    slices::finish(outcomes::made(s, &mut waiting, pool, x), state, reply)?;
    if x.changes_line() {
        slices::write_line(&waiting, line);
    }
    Ok(())
}

// A start over bytes; what stands in the line slice is not read.
pub fn start(
    n: StartNumbers,
    state: &mut [u8],
    line: &mut [u8],
    reply: &mut [u8],
    pool: &mut [u8],
) -> Result<(), Refusal>
    ensures { StartCalled n state.old line.old reply.old pool.old (number_of result) state.new line.new reply.new pool.new }
{
    if !slices::slices_fit(state.len(), line.len(), reply.len()) {
        return Err(Refusal::Slices);
    }
    let mut waiting = Line::new();
    slices::finish(outcomes::begun(n, &mut waiting, pool), state, reply)?;
    slices::write_line(&waiting, line);
    Ok(())
}
