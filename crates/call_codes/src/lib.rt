// What the numbers of an exported call stand for (docs/LAYOUTS.md, "Codes of the numbers").
#![tactic(auto)]

ghost use Rattle.std.specs.Bool.{then_some};
ghost use Rattle.std.specs.Prelude.{◌≡◌, ◌&&◌, ◌||◌, eqb};
ghost use Rattle.call_codes.specs.Codes.{timestamp_table, timestamp_of, task_table, task_of, received_of, stop_table, stop_of, result_table, result_of, cause_table, cause_of, known, known_flag, known_of, call_of, settings_of};
ghost use Rattle.service.specs.Service.{changes_line};

use radio_frame::Settings;
use service::ServiceCall;
use tasks::{Cause, Request, RxResult, StopResult, Task, TaskResult, Timestamp};

// A call as the host makes it: which function, and its numbers in their order, as C passes them.
#[derive(Clone, Copy)]
pub enum ExportedCall {
    Arrive(u32, u8, u8, u64, u8, u16, u8),
    Withdraw(u32),
    Request,
    None,
    FrameStart,
    OutboundSeen(u8, u64, u8),
    Stopped(u8, u16, u64, u8),
    Header(u16, u16),
    Entered(u8, u16, u64, u64, u8),
    Fallback(u8, u16, u64, u8, u64, u8),
    Rollback,
}

// The numbers of a start.
#[derive(Clone, Copy)]
pub struct StartNumbers {
    pub count: u8,
    pub headroom: u8,
    pub tailroom: u8,
    pub fcs_length: u8,
    pub hardware_addr: u64,
    pub pan_id: u16,
    pub implicit_broadcast: u8,
    pub ack_buffer: u8,
    pub spare_buffer: u8,
}

// ---- What the codes stand for, a table by a function of its definition's name; a code past the end of its table stands for nothing

fn flag_of(code: u8) -> Option<bool>
    ensures { result ≡ then_some (known_flag code) (eqb code 1) }
{
    match code {
        0 => Some(false),
        1 => Some(true),
        _ => None,
    }
}

#[tactic(auto, unfolding(crate::specs::Codes::timestamp_of))]
fn timestamp_of(code: u8, time: u64) -> Option<Timestamp>
    ensures { result ≡ then_some (known (timestamp_table time) code) (timestamp_of time code) }
{
    match code {
        0 => Some(Timestamp::BestEffort),
        1 => Some(Timestamp::Scheduled(time)),
        _ => None,
    }
}

// An Rx leaves the flag unused.
#[tactic(auto, unfolding(crate::specs::Codes::task_of))]
fn task_of(code: u8, length: u16, cca: u8) -> Option<Task>
    ensures { result ≡ then_some (known (task_table length cca) code && (eqb code 1 || known_flag cca)) (task_of length cca code) }
{
    match code {
        0 => Some(Task::Tx(length, flag_of(cca)?)),
        1 => Some(Task::Rx),
        _ => None,
    }
}

// What a receive task came to, of outcomes and results alike.
#[tactic(auto, unfolding(crate::specs::Codes::received_of))]
fn received_of(code: u8, length: u16, time: u64, quality: u8) -> Option<RxResult>
    ensures { result ≡ received_of length time quality code }
{
    match code {
        2 => Some(RxResult::Frame(length, time, quality)),
        3 => Some(RxResult::RxWindowEnded),
        4 => Some(RxResult::CrcError(time, quality)),
        _ => None,
    }
}

// Two functions, here and below, since they build the cases of two enums: a generic one would take its first two values and a
// closure for the third from each caller, and be longer than both. Their numbers come one by one, as C passes them.
#[tactic(auto, unfolding(crate::specs::Codes::stop_of, crate::specs::Codes::received_of))]
fn stop_of(code: u8, length: u16, time: u64, quality: u8) -> Option<StopResult>
    ensures { result ≡ then_some (known (stop_table length time quality) code) (stop_of length time quality code) }
{
    match code {
        0 => Some(StopResult::FrameStarted),
        1 => Some(StopResult::Failed),
        _ => Some(StopResult::RxWindowEnded(received_of(code, length, time, quality)?)),
    }
}

#[tactic(auto, unfolding(crate::specs::Codes::result_of, crate::specs::Codes::received_of))]
fn result_of(code: u8, length: u16, time: u64, quality: u8) -> Option<TaskResult>
    ensures { result ≡ then_some (known (result_table length time quality) code) (result_of length time quality code) }
{
    match code {
        0 => Some(TaskResult::Off),
        1 => Some(TaskResult::Sent(time)),
        _ => Some(TaskResult::Rx(received_of(code, length, time, quality)?)),
    }
}

#[tactic(auto, unfolding(crate::specs::Codes::cause_of))]
fn cause_of(code: u8, time: u64) -> Option<Cause>
    ensures { result ≡ then_some (known (cause_table time) code) (cause_of time code) }
{
    match code {
        0 => Some(Cause::Scheduling(Timestamp::BestEffort)),
        1 => Some(Cause::Scheduling(Timestamp::Scheduled(time))),
        2 => Some(Cause::Task),
        _ => None,
    }
}

impl ExportedCall {
    // The service's call, if all codes that the call uses stand for something.
    #[tactic(auto, unfolding(crate::specs::Codes::known_of, crate::specs::Codes::call_of))]
    pub fn call(self) -> Option<ServiceCall>
        ensures { result ≡ then_some (known_of self) (call_of self) }
    {
        Some(match self {
            ExportedCall::Arrive(token, direction, start, time, buffer, length, cca) =>
                ServiceCall::Arrive(Request {
                    token,
                    start: timestamp_of(start, time)?,
                    buffer,
                    task: task_of(direction, length, cca)?,
                }),
            ExportedCall::Withdraw(token) => ServiceCall::Withdraw(token),
            ExportedCall::Request => ServiceCall::Request,
            ExportedCall::None => ServiceCall::None,
            ExportedCall::FrameStart => ServiceCall::FrameStart,
            ExportedCall::OutboundSeen(start, time, cca) => ServiceCall::OutboundSeen(
                timestamp_of(start, time)?,
                flag_of(cca)?,
            ),
            ExportedCall::Stopped(outcome, length, time, quality) => ServiceCall::Stopped(stop_of(
                outcome, length, time, quality,
            )?),
            ExportedCall::Header(arrived, length) => ServiceCall::Header(arrived, length),
            ExportedCall::Entered(result, length, time, entry, quality) => ServiceCall::Entered(
                result_of(result, length, time, quality)?,
                entry,
            ),
            ExportedCall::Fallback(result, length, time, cause, cause_time, quality) =>
                ServiceCall::Fallback(
                    result_of(result, length, time, quality)?,
                    cause_of(cause, cause_time)?,
                ),
            ExportedCall::Rollback => ServiceCall::Rollback,
        })
    }
}

impl ExportedCall {
    // The calls that can change the line; all others leave it as it is.
    #[tactic(auto, unfolding(service::specs::Service::changes_line, crate::specs::Codes::call_of))]
    pub fn changes_line(self) -> bool
        ensures { result ≡ changes_line (call_of self) }
    {
        matches!(
            self,
            ExportedCall::Arrive(_, _, _, _, _, _, _)
                | ExportedCall::Withdraw(_)
                | ExportedCall::Request
        )
    }
}

impl StartNumbers {
    // The settings; an implicit broadcast that stands for nothing is read as 0, since its refusal comes after others of the settings.
    #[tactic(auto, unfolding(crate::specs::Codes::settings_of))]
    pub fn settings(self) -> Settings
        ensures { result ≡ settings_of self }
    {
        Settings {
            count: self.count,
            headroom: self.headroom,
            tailroom: self.tailroom,
            fcs_length: self.fcs_length,
            hardware_addr: self.hardware_addr,
            pan_id: self.pan_id,
            implicit_broadcast: self.implicit_broadcast == 1,
            ack_buffer: self.ack_buffer,
            spare_buffer: self.spare_buffer,
        }
    }
}
