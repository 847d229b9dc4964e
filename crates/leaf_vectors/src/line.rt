// A line of 128 bytes: docs/VECTORS.md has its columns.
use hex_digits::bytes;

// What a line asks, with the bytes of a frame and how many of them are given, and the answer that it expects. An array with a length
// beside it, as the line has both, and as there is no heap. Section and kind are the letters of that format.
#[derive(Clone, Copy)]
pub struct Question {
    pub section: u8,
    pub kind: u8,
    length: u8,
    bytes: [u8; 26],
    pub a: u64,
    pub b: u16,
    pub c: u8,
    pub expected: u64,
}

impl From<&[u8; 128]> for Question {
    fn from(line: &[u8; 128]) -> Question {
        Question {
            section: line[0],
            kind: line[2],
            length: u8::from_be_bytes(bytes(&line[4..6])),
            bytes: bytes(&line[7..59]),
            a: u64::from_be_bytes(bytes(&line[60..76])),
            b: u16::from_be_bytes(bytes(&line[77..81])),
            c: u8::from_be_bytes(bytes(&line[82..84])),
            expected: u64::from_be_bytes(bytes(&line[85..101])),
        }
    }
}

impl Question {
    pub fn frame(&self) -> &[u8] {
        &self.bytes[..usize::from(self.length).min(26)]
    }
}
