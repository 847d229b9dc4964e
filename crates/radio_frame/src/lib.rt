// Settings, and the frame record as numbers beside the lent pool (radio_frame.rs, repr.rs).
#![tactic(auto)]

ghost use Rattle.std.specs.Prelude.{◌≡◌, ◌+◌, ltb, take, drop};
ghost use Rattle.refusals.specs.Refusals.{number_of};
ghost use Rattle.phy.specs.Phy.{phy_max_packet_size};
ghost use Rattle.radio_frame.specs.Settings.{pool_unfit, rooms_unfit, own_buffers_unfit, settings_refusal};
ghost use Rattle.radio_frame.specs.RadioFrame.{frame_start, sdu_length, radio_frame_of, ack_seq_num_of};

use refusals::Refusal;

// What start sets; a re-arm exchanges the spare buffer. The hardware address is its eight bytes, highest first, as one number.
#[derive(Clone, Copy, Default)]
pub struct Settings {
    pub count: u8,
    pub headroom: u8,
    pub tailroom: u8,
    pub fcs_length: u8,
    pub hardware_addr: u64,
    pub pan_id: u16,
    pub implicit_broadcast: bool,
    pub ack_buffer: u8,
    pub spare_buffer: u8,
}

// The bytes of one buffer in the pool.
pub const BUFFER_LENGTH: u32 = 144;

// Places in the pool, from start up to but not including end. (Not std's Range, which is no Copy.)
#[derive(Clone, Copy)]
pub struct Range {
    pub start: u32,
    pub end: u32,
}

// Where the parts of a frame of a known length stand in the pool.
#[derive(Clone, Copy)]
pub struct RadioFrame {
    pub headroom: Range,
    pub sdu: Range,
    pub fcs: Range,
    pub tailroom: Range,
}

#[tactic(auto, unfolding(crate::specs::Settings::pool_unfit))]
fn is_pool_unfit(set: Settings, len: usize) -> bool
    ensures { result ≡ pool_unfit set len }
{
    let count_unfit = set.count < 3 || 32 < set.count;
    count_unfit || len != (BUFFER_LENGTH * u32::from(set.count)) as usize
}

#[tactic(auto, unfolding(crate::specs::Settings::rooms_unfit))]
fn are_rooms_unfit(set: Settings) -> bool
    ensures { result ≡ rooms_unfit set }
{
    let too_long = 8 < set.headroom || 8 < set.tailroom;
    too_long || !(set.fcs_length == 2 || set.fcs_length == 4)
}

#[tactic(auto, unfolding(crate::specs::Settings::own_buffers_unfit))]
fn are_own_buffers_unfit(set: Settings) -> bool
    ensures { result ≡ own_buffers_unfit set }
{
    let above = set.count <= set.ack_buffer || set.count <= set.spare_buffer;
    set.ack_buffer == set.spare_buffer || above
}

// The first of refusals 2, 3 and 4 that settings and a pool of a length meet.
#[tactic(auto, unfolding(crate::specs::Settings::settings_refusal))]
pub fn check_settings(set: Settings, len: usize) -> Result<(), Refusal>
    ensures { number_of result ≡ settings_refusal set len }
{
    if is_pool_unfit(set, len) {
        return Err(Refusal::Pool);
    }
    if are_rooms_unfit(set) {
        return Err(Refusal::Lengths);
    }
    if are_own_buffers_unfit(set) {
        return Err(Refusal::OwnBuffers);
    }
    Ok(())
}

// Where a buffer's frame begins.
#[tactic(auto, unfolding(crate::specs::RadioFrame::frame_start))]
pub fn frame_start(set: Settings, buffer: u8) -> u32
    ensures { result ≡ frame_start set buffer }
{
    BUFFER_LENGTH * u32::from(buffer) + u32::from(set.headroom)
}

// The length with checksum; it stays at the largest 16-bit number where the sum is above that.
#[tactic(auto, unfolding(crate::specs::RadioFrame::sdu_length))]
pub fn sdu_length(set: Settings, length: u16) -> u16
    ensures { result ≡ sdu_length set length }
{
    length.saturating_add(set.fcs_length.into())
}

// The first n bytes of the frame in a buffer: those of them that the pool has.
pub fn frame_bytes(set: Settings, pool: &[u8], buffer: u8, n: usize) -> &[u8]
    ensures { result.now ≡ take n (drop (frame_start set buffer) pool.now) }
{
    util::part(pool, frame_start(set, buffer) as usize, n)
}

// Whether a length without checksum is above the longest frame's.
pub fn is_too_long(set: Settings, length: u16) -> bool
    ensures { result ≡ ltb phy_max_packet_size (length + set.fcs_length) }
{
    phy::PHY_MAX_PACKET_SIZE < u32::from(length) + u32::from(set.fcs_length)
}

// The parts of the frame of a length without checksum in a buffer.
#[tactic(auto, unfolding(crate::specs::RadioFrame::radio_frame_of))]
pub fn radio_frame(set: Settings, buffer: u8, length: u16) -> RadioFrame
    ensures { result ≡ radio_frame_of set buffer length }
{
    let buffer_start = BUFFER_LENGTH * u32::from(buffer);
    let sdu = buffer_start + u32::from(set.headroom);
    let fcs = sdu + u32::from(length);
    let tailroom = fcs + u32::from(set.fcs_length);
    let end = tailroom + u32::from(set.tailroom);
    RadioFrame {
        headroom: Range {
            start: buffer_start,
            end: sdu,
        },
        sdu: Range {
            start: sdu,
            end: fcs,
        },
        fcs: Range {
            start: fcs,
            end: tailroom,
        },
        tailroom: Range {
            start: tailroom,
            end,
        },
    }
}

// The number with which a frame, of which these bytes are given, wants an acknowledgement; fewer than three have none.
#[tactic(auto, unfolding(crate::specs::RadioFrame::ack_seq_num_of))]
pub fn ack_seq_num(frame: &[u8]) -> Option<u8>
    ensures { result ≡ ack_seq_num_of frame.now }
{
    let [low, high, number, ..] = frame else {
        return None;
    };
    let fc = frame_control::frame_control(*low, *high);
    (fc.ack_request && !fc.sequence_number_suppression).then_some(*number)
}
