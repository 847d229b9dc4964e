// The driver service with its waiting line: the eleven calls, and what one of them comes to. The definitions, the book and the theorems
// stand in specs.
#![tactic(auto)]

use tasks::{Cause, Request, StopResult, TaskResult, Timestamp};

// The eleven calls. Arrive and Withdraw change the line alone; requests reach the service only by the line, so Request has no fields.
#[derive(Clone, Copy)]
pub enum ServiceCall {
    Arrive(Request),
    Withdraw(u32),
    Request,
    None,
    FrameStart,
    OutboundSeen(Timestamp, bool),
    Stopped(StopResult),
    Header(u16, u16),
    Entered(TaskResult, u64),
    Fallback(TaskResult, Cause),
    Rollback,
}
