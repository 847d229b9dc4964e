// What a call does, and the moves that several waits make (driver.rs).
#![tactic(auto)]

ghost use Rattle.std.specs.Prelude.{◌≡◌};
ghost use Rattle.moves.specs.Move.{made, accepted_of, to_idle, ask_any, listen_on, stop_move};

use radio_frame::Settings;
use tasks::{
    Action, Answers, Asked, Reply, RxTask, State, Stop, StopListening, TaskDirection, Wait,
};

// What an accepted call does: the next state; the reply; the number that it writes into the ACK frame, if any.
#[derive(Clone, Copy)]
pub struct Accepted {
    pub state: State,
    pub reply: Reply,
    pub number: Option<u8>,
}

pub fn accept(set: Settings, wait: Wait, action: Action, answers: Answers) -> Accepted
    ensures { made result ≡ accepted_of set wait action answers }
{
    Accepted {
        state: State { set, wait },
        reply: Reply { action, answers },
        number: None,
    }
}

pub fn to_idle(set: Settings, answers: Answers) -> Accepted
    ensures { made result ≡ to_idle set answers }
{
    accept(
        set,
        Wait::Asking(Asked::Idle),
        Action::ReceiveRequest,
        answers,
    )
}

pub fn ask(set: Settings, a: Asked, answers: Answers) -> Accepted
    ensures { made result ≡ ask_any set a answers }
{
    accept(
        set,
        Wait::Asking(a),
        Action::TryReceiveRequest(TaskDirection::Any),
        answers,
    )
}

pub fn listen(set: Settings, q: RxTask, answers: Answers) -> Accepted
    ensures { made result ≡ listen_on set q answers }
{
    accept(set, Wait::Listening(q), Action::Listen, answers)
}

pub fn stop(set: Settings, p: Stop, how: StopListening) -> Accepted
    ensures { made result ≡ stop_move set p how }
{
    accept(set, Wait::Stopping(p), Action::Stop(how), Answers::None)
}
