// The frame control field of an IEEE 802.15.4 MAC header (frame_control.rs).
#![tactic(auto)]

ghost use Rattle.std.specs.Prelude.{◌≡◌, ◌<◌};
ghost use Rattle.frame_control.specs.FrameControl.{mode_of, bit, fields_of, frame_control_of, well_formed};

// How an address stands in the header; Unknown is the reserved mode 1.
#[derive(Clone, Copy, Debug, PartialEq, Eq)]
pub enum AddressingMode {
    Absent,
    Unknown,
    Short,
    Extended,
}

// The named fields of the two bytes. Type and version are numbers, as all that is asked of them is a bound.
#[derive(Clone, Copy, Debug, PartialEq, Eq)]
pub struct FrameControl {
    pub frame_type: u8,
    pub security_enabled: bool,
    pub frame_pending: bool,
    pub ack_request: bool,
    pub pan_id_compression: bool,
    pub sequence_number_suppression: bool,
    pub information_elements_present: bool,
    pub dst_addressing_mode: AddressingMode,
    pub frame_version: u8,
    pub src_addressing_mode: AddressingMode,
}

// The addressing mode that the number of two bits stands for.
impl From<u16> for AddressingMode {
    ghost from_gives = { λ number r. r ≡ mode_of number };

    #[tactic(auto, unfolding(crate::specs::FrameControl::mode_of))]
    fn from(number: u16) -> AddressingMode {
        match number {
            0 => AddressingMode::Absent,
            2 => AddressingMode::Short,
            3 => AddressingMode::Extended,
            _ => AddressingMode::Unknown,
        }
    }
}

// Whether a bit is set. (std's integers have no method for one bit.)
fn bit(control: u16, place: u32) -> bool
    requires { place < 16 }
    ensures { result ≡ bit place control }
{
    control >> place & 1 == 1
}

// The fields of the two bytes as one number.
impl From<u16> for FrameControl {
    ghost from_gives = { λ control r. r ≡ fields_of control };

    #[tactic(auto, unfolding(crate::specs::FrameControl::fields_of))]
    fn from(control: u16) -> FrameControl {
        let version = control / 4096 % 4;
        FrameControl {
            frame_type: (control % 8) as u8,
            security_enabled: bit(control, 3),
            frame_pending: bit(control, 4),
            ack_request: bit(control, 5),
            pan_id_compression: bit(control, 6),
            sequence_number_suppression: version == 2 && bit(control, 8),
            information_elements_present: bit(control, 9),
            dst_addressing_mode: (control / 1024 % 4).into(),
            frame_version: version as u8,
            src_addressing_mode: (control / 16384 % 4).into(),
        }
    }
}

impl FrameControl {
    // Whether the control is well formed.
    #[tactic(auto, unfolding(crate::specs::FrameControl::well_formed, crate::specs::FrameControl::reserved))]
    pub fn is_valid(self) -> bool
        ensures { result ≡ well_formed self }
    {
        self.frame_type <= 3
            && self.frame_version <= 2
            && self.dst_addressing_mode != AddressingMode::Unknown
            && self.src_addressing_mode != AddressingMode::Unknown
    }
}

// The fields of the frame control whose two bytes are given, the low byte first.
#[tactic(auto, unfolding(crate::specs::FrameControl::frame_control_of))]
pub fn frame_control(low: u8, high: u8) -> FrameControl
    ensures { result ≡ frame_control_of low high }
{
    FrameControl::from(u16::from_le_bytes([low, high]))
}
