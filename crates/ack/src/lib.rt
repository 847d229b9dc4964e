// The immediate acknowledgement (ack.rs, and receive_frame of driver.rs).
#![tactic(auto)]

ghost use Rattle.std.specs.Prelude.{◌≡◌};
ghost use Rattle.ack.specs.Ack.{imm_ack_frame_at, seq_nr_set_at, acknowledges};

// Writes the acknowledgement that start leaves in the ACK buffer's frame, which begins at a place.
#[tactic(auto, unfolding(crate::specs::Ack::imm_ack_frame_at))]
pub fn imm_ack_frame(pool: &mut [u8], begin: u32)
    ensures { pool.new ≡ imm_ack_frame_at pool.old begin }
{
    let at = begin as usize;
    util::put(pool, at, 0x02);
    util::put(pool, at + 1, 0x10);
    util::put(pool, at + 2, 0x00);
}

// Sets the sequence number of the acknowledgement whose frame begins at a place.
#[tactic(auto, unfolding(crate::specs::Ack::seq_nr_set_at))]
pub fn set_sequence_number(pool: &mut [u8], begin: u32, number: u8)
    ensures { pool.new ≡ seq_nr_set_at pool.old begin number }
{
    util::put(pool, (begin as usize) + 2, number);
}

// Whether a received frame, its bytes and its length without checksum, acknowledges a number; fewer than three bytes never do.
#[tactic(auto, unfolding(crate::specs::Ack::acknowledges, crate::specs::Ack::three_bytes, crate::specs::Ack::mask_efff))]
pub fn is_ack_for(frame: &[u8], length: u16, number: u8) -> bool
    ensures { result ≡ acknowledges frame.now length number }
{
    let [low, high, third, ..] = frame else {
        return false;
    };
    length == 3 && u16::from_le_bytes([*low, *high]) & 0xEFFF == 0x0002 && *third == number
}
