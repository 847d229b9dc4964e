// The spacings between frames (phy.rs), and the time an acknowledgement may start at the latest (driver.rs, timer.rs).
#![tactic(auto)]

ghost use Rattle.std.specs.Prelude.{◌≡◌};
ghost use Rattle.phy.specs.Phy.{ifs_of, ifs_code, LatestAckStarts};

// The longest frame with checksum, in bytes.
pub const PHY_MAX_PACKET_SIZE: u32 = 127;

// The inter-frame spacings: before an acknowledgement, after a short frame, after a long one.
#[derive(Clone, Copy)]
pub enum Ifs {
    Aifs,
    Sifs,
    Lifs,
}

// The spacing after a frame of a length with checksum.
#[tactic(auto, unfolding(crate::specs::Phy::ifs_of))]
pub fn from_mpdu_length(length: u16) -> Ifs
    ensures { result ≡ ifs_of length }
{
    if length <= 18 { Ifs::Sifs } else { Ifs::Lifs }
}

// The code of a spacing.
impl From<Ifs> for u8 {
    ghost from_gives = { λ ifs r. r ≡ ifs_code ifs };

    #[tactic(auto, unfolding(crate::specs::Phy::ifs_code))]
    fn from(ifs: Ifs) -> u8 {
        ifs as u8
    }
}

// The latest start of an acknowledgement whose wait was entered at a measured time.
#[tactic(auto, unfolding(crate::specs::Phy::latest_ack_start_of, crate::specs::Phy::latest_ack_start_refusal))]
pub fn latest_ack_start(entry: u64) -> Option<u64>
    ensures { LatestAckStarts entry result }
{
    entry.checked_add(10_000)
}
