// A record of 64 bytes by its columns, with the names and places of docs/REPLAY-FORMAT.md. Each is read where it is asked for: most
// records have few.
use hex_digits::bytes;

#[derive(Clone, Copy)]
pub struct Record([u8; 64]);

impl From<&[u8; 64]> for Record {
    fn from(line: &[u8; 64]) -> Record {
        Record(*line)
    }
}

impl Record {
    pub fn kind(&self) -> char {
        self.0[0].into()
    }

    pub fn a(&self) -> u32 {
        u32::from_be_bytes(bytes(&self.0[2..10]))
    }

    pub fn b(&self) -> u16 {
        u16::from_be_bytes(bytes(&self.0[11..15]))
    }

    pub fn c(&self) -> u16 {
        u16::from_be_bytes(bytes(&self.0[16..20]))
    }

    pub fn d(&self) -> u64 {
        u64::from_be_bytes(bytes(&self.0[21..37]))
    }

    pub fn e(&self) -> u64 {
        u64::from_be_bytes(bytes(&self.0[38..54]))
    }

    pub fn x(&self) -> char {
        self.0[55].into()
    }

    pub fn y(&self) -> char {
        self.0[57].into()
    }

    pub fn z(&self) -> bool {
        self.0[59] == b'1'
    }

    pub fn w(&self) -> char {
        self.0[61].into()
    }
}
