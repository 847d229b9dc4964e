// A record as a call, or as settings. docs/REPLAY-FORMAT.md says what its columns are in each kind of record; that format has letters for
// the kinds, and stays.
use crate::columns::Record;
use radio_frame::Settings;
use service::ServiceCall;
use tasks::{Cause, Request, RxResult, StopResult, Task, TaskResult, Timestamp};

impl Record {
    fn start(&self, time: u64) -> Timestamp {
        match self.y() {
            't' => Timestamp::Scheduled(time),
            _ => Timestamp::BestEffort,
        }
    }

    // A buffer, or a link quality.
    fn low_c(&self) -> u8 {
        (self.c() & 0xff) as u8
    }

    fn request(&self) -> Request {
        Request {
            token: self.a(),
            start: self.start(self.d()),
            buffer: self.low_c(),
            task: match self.x() {
                't' => Task::Tx(self.b(), self.z()),
                _ => Task::Rx,
            },
        }
    }

    fn rx_result(&self) -> RxResult {
        match self.w() {
            'f' => RxResult::Frame(self.b(), self.d(), self.low_c()),
            'c' => RxResult::CrcError(self.d(), self.low_c()),
            _ => RxResult::RxWindowEnded,
        }
    }

    fn task_result(&self) -> TaskResult {
        match self.w() {
            'o' => TaskResult::Off,
            's' => TaskResult::Sent(self.d()),
            _ => TaskResult::Rx(self.rx_result()),
        }
    }

    fn stop_result(&self) -> StopResult {
        match self.x() {
            'f' => StopResult::FrameStarted,
            'e' => StopResult::RxWindowEnded(self.rx_result()),
            _ => StopResult::Failed,
        }
    }

    fn cause(&self) -> Cause {
        match self.x() {
            't' => Cause::Task,
            _ => Cause::Scheduling(self.start(self.e())),
        }
    }

    // None where no call has a record of this kind.
    pub fn call(&self) -> Option<ServiceCall> {
        Some(match self.kind() {
            'A' => ServiceCall::Arrive(self.request()),
            'W' => ServiceCall::Withdraw(self.a()),
            'q' => ServiceCall::Request,
            'n' => ServiceCall::None,
            'f' => ServiceCall::FrameStart,
            'o' => ServiceCall::OutboundSeen(self.start(self.d()), self.z()),
            'p' => ServiceCall::Stopped(self.stop_result()),
            'h' => ServiceCall::Header(self.b(), self.c()),
            'e' => ServiceCall::Entered(self.task_result(), self.e()),
            'b' => ServiceCall::Fallback(self.task_result(), self.cause()),
            'r' => ServiceCall::Rollback,
            _ => return None,
        })
    }

    pub fn settings(&self) -> Settings {
        let [count, headroom, tailroom, fcs_length] = self.a().to_be_bytes();
        let [ack_buffer, spare_buffer] = self.b().to_be_bytes();
        Settings {
            count,
            headroom,
            tailroom,
            fcs_length,
            hardware_addr: self.e(),
            pan_id: self.c(),
            implicit_broadcast: self.z(),
            ack_buffer,
            spare_buffer,
        }
    }

    // How many bytes of the pool are to be lent: the low 16 bits of d.
    pub fn pool_length(&self) -> usize {
        (self.d() & 0xffff) as usize
    }
}
