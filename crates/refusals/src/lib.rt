// Why a call is refused.
#![tactic(auto)]

ghost use Rattle.std.specs.Prelude.{◌≡◌};
ghost use Rattle.refusals.specs.Refusals.{refusal_number, number_of};

// The refusals by what they say, with document 01's numbers.
#[derive(Clone, Copy, Debug, PartialEq, Eq)]
pub enum Refusal {
    Slices = 1,
    Pool = 2,
    Lengths = 3,
    OwnBuffers = 4,
    Unfit = 5,
    TokenHeld = 6,
    BufferHeld = 7,
    TxLength = 8,
    NotAllowed = 9,
    ReceivedLength = 10,
    LatestAckStart = 11,
    LineFull = 12,
    TokenWaits = 13,
    FrameLength = 14,
}

// The number that the exported form returns.
impl From<Refusal> for u8 {
    ghost from_gives = { λ refusal number. number ≡ refusal_number refusal };

    fn from(refusal: Refusal) -> u8 {
        refusal as u8
    }
}

// What the exported form returns of a result: 0, or the refusal's number.
pub fn number(outcome: Result<(), Refusal>) -> u8
    ensures { result ≡ number_of outcome }
{
    match outcome {
        Ok(()) => 0,
        Err(refusal) => refusal.into(),
    }
}
