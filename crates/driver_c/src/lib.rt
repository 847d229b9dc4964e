// The driver service as C functions on numbers and byte slices: docs/LAYOUTS.md. C calls one function for each kind of call.
#![tactic(auto)]

ghost use Rattle.std.specs.Prelude.{◌≡◌};
ghost use Rattle.abi_version.specs.Version.{abi_version_number};
ghost use Rattle.call_codes.specs.declared.ExportedCall.{ExportedCall};
ghost use Rattle.byte_calls.specs.Calls.{Called};
ghost use Rattle.byte_calls.specs.Start.{StartCalled};

use call_codes::{ExportedCall, StartNumbers};

#[unsafe(no_mangle)]
pub extern "C" fn widosha_abi_version() -> u32
    ensures { result ≡ abi_version_number }
{
    abi_version::abi_version()
}

#[unsafe(no_mangle)]
pub extern "C" fn widosha_start(
    count: u8,
    headroom: u8,
    tailroom: u8,
    fcs_length: u8,
    hardware_addr: u64,
    pan_id: u16,
    implicit_broadcast: u8,
    ack_buffer: u8,
    spare_buffer: u8,
    state: &mut [u8],
    line: &mut [u8],
    reply: &mut [u8],
    pool: &mut [u8],
) -> u8
    ensures { StartCalled (record { count = count; headroom = headroom; tailroom = tailroom; fcs_length = fcs_length; hardware_addr = hardware_addr; pan_id = pan_id; implicit_broadcast = implicit_broadcast; ack_buffer = ack_buffer; spare_buffer = spare_buffer }) state.old line.old reply.old pool.old result state.new line.new reply.new pool.new }
{
    refusals::number(exported::start(
        StartNumbers {
            count,
            headroom,
            tailroom,
            fcs_length,
            hardware_addr,
            pan_id,
            implicit_broadcast,
            ack_buffer,
            spare_buffer,
        },
        state,
        line,
        reply,
        pool,
    ))
}

#[unsafe(no_mangle)]
pub extern "C" fn widosha_arrive(
    token: u32,
    direction: u8,
    start: u8,
    time: u64,
    buffer: u8,
    length: u16,
    cca: u8,
    state: &mut [u8],
    line: &mut [u8],
    reply: &mut [u8],
    pool: &mut [u8],
) -> u8
    ensures { Called state.old line.old reply.old pool.old (ExportedCall.Arrive token direction start time buffer length cca) result state.new line.new reply.new pool.new }
{
    refusals::number(exported::call(
        state,
        line,
        reply,
        pool,
        ExportedCall::Arrive(token, direction, start, time, buffer, length, cca),
    ))
}

#[unsafe(no_mangle)]
pub extern "C" fn widosha_withdraw(
    token: u32,
    state: &mut [u8],
    line: &mut [u8],
    reply: &mut [u8],
    pool: &mut [u8],
) -> u8
    ensures { Called state.old line.old reply.old pool.old (ExportedCall.Withdraw token) result state.new line.new reply.new pool.new }
{
    refusals::number(exported::call(state, line, reply, pool, ExportedCall::Withdraw(token)))
}

#[unsafe(no_mangle)]
pub extern "C" fn widosha_request(
    state: &mut [u8],
    line: &mut [u8],
    reply: &mut [u8],
    pool: &mut [u8],
) -> u8
    ensures { Called state.old line.old reply.old pool.old ExportedCall.Request result state.new line.new reply.new pool.new }
{
    refusals::number(exported::call(state, line, reply, pool, ExportedCall::Request))
}

#[unsafe(no_mangle)]
pub extern "C" fn widosha_none(
    state: &mut [u8],
    line: &mut [u8],
    reply: &mut [u8],
    pool: &mut [u8],
) -> u8
    ensures { Called state.old line.old reply.old pool.old ExportedCall.None result state.new line.new reply.new pool.new }
{
    refusals::number(exported::call(state, line, reply, pool, ExportedCall::None))
}

#[unsafe(no_mangle)]
pub extern "C" fn widosha_frame_start(
    state: &mut [u8],
    line: &mut [u8],
    reply: &mut [u8],
    pool: &mut [u8],
) -> u8
    ensures { Called state.old line.old reply.old pool.old ExportedCall.FrameStart result state.new line.new reply.new pool.new }
{
    refusals::number(exported::call(state, line, reply, pool, ExportedCall::FrameStart))
}

#[unsafe(no_mangle)]
pub extern "C" fn widosha_outbound_seen(
    start: u8,
    time: u64,
    cca: u8,
    state: &mut [u8],
    line: &mut [u8],
    reply: &mut [u8],
    pool: &mut [u8],
) -> u8
    ensures { Called state.old line.old reply.old pool.old (ExportedCall.OutboundSeen start time cca) result state.new line.new reply.new pool.new }
{
    refusals::number(exported::call(
        state,
        line,
        reply,
        pool,
        ExportedCall::OutboundSeen(start, time, cca),
    ))
}

#[unsafe(no_mangle)]
pub extern "C" fn widosha_stopped(
    outcome: u8,
    length: u16,
    time: u64,
    quality: u8,
    state: &mut [u8],
    line: &mut [u8],
    reply: &mut [u8],
    pool: &mut [u8],
) -> u8
    ensures { Called state.old line.old reply.old pool.old (ExportedCall.Stopped outcome length time quality) result state.new line.new reply.new pool.new }
{
    refusals::number(exported::call(
        state,
        line,
        reply,
        pool,
        ExportedCall::Stopped(outcome, length, time, quality),
    ))
}

#[unsafe(no_mangle)]
pub extern "C" fn widosha_header(
    arrived: u16,
    length: u16,
    state: &mut [u8],
    line: &mut [u8],
    reply: &mut [u8],
    pool: &mut [u8],
) -> u8
    ensures { Called state.old line.old reply.old pool.old (ExportedCall.Header arrived length) result state.new line.new reply.new pool.new }
{
    refusals::number(exported::call(
        state,
        line,
        reply,
        pool,
        ExportedCall::Header(arrived, length),
    ))
}

#[unsafe(no_mangle)]
pub extern "C" fn widosha_entered(
    res: u8,
    length: u16,
    time: u64,
    entry: u64,
    quality: u8,
    state: &mut [u8],
    line: &mut [u8],
    reply: &mut [u8],
    pool: &mut [u8],
) -> u8
    ensures { Called state.old line.old reply.old pool.old (ExportedCall.Entered res length time entry quality) result state.new line.new reply.new pool.new }
{
    refusals::number(exported::call(
        state,
        line,
        reply,
        pool,
        ExportedCall::Entered(res, length, time, entry, quality),
    ))
}

#[unsafe(no_mangle)]
pub extern "C" fn widosha_fallback(
    res: u8,
    length: u16,
    time: u64,
    cause: u8,
    cause_time: u64,
    quality: u8,
    state: &mut [u8],
    line: &mut [u8],
    reply: &mut [u8],
    pool: &mut [u8],
) -> u8
    ensures { Called state.old line.old reply.old pool.old (ExportedCall.Fallback res length time cause cause_time quality) result state.new line.new reply.new pool.new }
{
    refusals::number(exported::call(
        state,
        line,
        reply,
        pool,
        ExportedCall::Fallback(res, length, time, cause, cause_time, quality),
    ))
}

#[unsafe(no_mangle)]
pub extern "C" fn widosha_rollback(
    state: &mut [u8],
    line: &mut [u8],
    reply: &mut [u8],
    pool: &mut [u8],
) -> u8
    ensures { Called state.old line.old reply.old pool.old ExportedCall.Rollback result state.new line.new reply.new pool.new }
{
    refusals::number(exported::call(state, line, reply, pool, ExportedCall::Rollback))
}
