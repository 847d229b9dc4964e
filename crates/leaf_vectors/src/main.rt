// Replays the vectors of standard input, lines of 128 bytes, over the leaves: docs/VECTORS.md has their layout and where they
// come from. Prints the header bytes of the standard's frames, the counts of each section and the first disagreement.
#![tactic(auto)]

mod line;
mod number;

use frame_control::FrameControl;
use line::Question;
use std::io::ErrorKind;
use std::{fmt, io};

// A section of the vectors: how many there are, and at how many of them the answer is the expected one.
#[derive(Clone, Copy)]
struct Section {
    letter: u8,
    name: &'static str,
    vectors: u64,
    agree: u64,
}

#[derive(Clone, Copy)]
struct Tally {
    sections: [Section; 4],
    wrong: u64,
}

// The answer of the leaves to a question; none where a fact is missing.
fn answer(q: &Question) -> Option<u64> {
    let frame = q.frame();
    let control = util::u16_at(frame, 0);
    let fc = FrameControl::from(control);
    Some(match q.kind {
        b'v' => leaves_c::widosha_is_valid(control).into(),
        b'l' => leaves_c::widosha_addressing_fields_lengths(control).into(),
        b'f' => leaves_c::widosha_is_frame_valid_and_for_us(frame, q.a, q.b, q.c).into(),
        b'a' => leaves_c::widosha_ack_seq_num(frame).into(),
        b'i' => leaves_c::widosha_from_mpdu_length(q.b).into(),
        b'k' => leaves_c::widosha_is_ack_for(frame, q.b, q.c).into(),
        b't' => number::latest(phy::latest_ack_start(q.a)),
        b'c' => number::fields(fc),
        b'h' => number::header_length(fc),
        b'w' => number::ack_written(frame, q.b, q.c),
        b'r' => number::ranges(q.a, q.b)?,
        kind => number::fact(kind, header::preliminary_frame_info(frame))?,
    })
}

impl Section {
    fn new(letter: u8, name: &'static str) -> Section {
        Section {
            letter,
            name,
            vectors: 0,
            agree: 0,
        }
    }

    fn count(&mut self, agrees: bool) {
        self.vectors = self.vectors.saturating_add(1);
        self.agree = self.agree.saturating_add(agrees.into());
    }
}

impl fmt::Display for Section {
    fn fmt<W: fmt::Write>(&self, f: &mut fmt::Formatter<W>) -> fmt::Result {
        write!(f, "{}: {} of {}", self.name, self.agree, self.vectors)
    }
}

impl Tally {
    fn new() -> Tally {
        Tally {
            sections: [
                Section::new(b'R', "the Rust's answers"),
                Section::new(b'X', "listed differences from the Rust"),
                Section::new(b'S', "frames of the standard"),
                Section::new(b'M', "marked rows"),
            ],
            wrong: 0,
        }
    }

    // Counts a vector. It shows the header bytes of a frame of the standard, and the first line whose answer is not the expected one.
    fn judge(&mut self, rt: &impl Print, line: &[u8; 128]) -> io::Result<()> {
        let q = Question::from(line);
        let found = answer(&q).unwrap_or(u64::MAX);
        let agrees = found == q.expected;
        if q.section == b'S' && q.kind == b'h' {
            rt.write_all(&line[102..127])?;
            println!(rt; ": {found} header bytes")?;
        }
        if !agrees && self.wrong == 0 {
            println!(rt; "first disagreement: {found:016x} at")?;
            rt.write_all(line)?;
        }
        if let Some(section) = self.sections.iter_mut().find(|s| s.letter == q.section) {
            section.count(agrees);
        }
        self.wrong = self.wrong.saturating_add((!agrees).into());
        Ok(())
    }
}

// The input ends where fewer bytes than a line's are left. `for` with `break` is the form that the language has for a loop that ends
// with its input; more than 100,000 lines are not read.
fn replay(rt: &impl Print, input: &mut impl io::Read) -> io::Result<Tally> {
    let mut tally = Tally::new();
    let mut line = [0u8; 128];
    for _ in 0..100_000 {
        match input.read_exact(&mut line) {
            Err(e) if e.kind() == ErrorKind::UnexpectedEof => break,
            read => read?,
        }
        tally.judge(rt, &line)?;
    }
    Ok(tally)
}

fn main(rt: HostRuntime) -> io::Result<()> {
    let tally = replay(&rt, &mut rt.reader())?;
    for section in tally.sections {
        println!(rt; "{section}")?;
    }
    println!(rt; "wrong: {}", tally.wrong)
}
