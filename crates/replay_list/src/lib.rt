// A list of calls with the answers that they must have, as prog_replay reads it: the words, bytes and lines of
// a call, and what is found, which is compared with the next words. The first number of a record that differs
// is written to standard output. `oracle/README.md` states the form of a list.
#![tactic(auto)]

ghost use Rattle.std.specs.Prelude.{◌≡◌, ℕ, ◌≤◌, length, IsTrue};
ghost use Rattle.std.specs.Float.{binary32};
ghost use Rattle.std.specs.Float.Ieee.{of_bits, to_bits};

use std::io::Read;

// The f32 of a bit pattern. Every NaN pattern gives a NaN, whose own bits the language leaves open.
pub fn float_of(pattern: u32) -> f32
    ensures { result ≡ of_bits binary32 pattern }
{
    if pattern % 0x8000_0000 > 0x7f80_0000 {
        return f32::NAN;
    }
    f32::from_bits(pattern)
}

// The bit pattern of an f32. One pattern stands for every NaN. By `is_nan` the check does not find the proof.
fn pattern_of(x: f32) -> u32
    ensures { result ≡ to_bits binary32 x }
{
    if x != x {
        return 0x7fc0_0000;
    }
    x.to_bits()
}

// What is found after a call: a list has a word for each.
pub trait Found: Copy {
    ghost as_word: { Self → ℕ };

    fn word(self) -> u32
        ensures { result ≡ as_word self };
}

impl Found for u8 {
    ghost as_word = { λ byte. byte };

    fn word(self) -> u32 {
        u32::from(self)
    }
}

impl Found for u16 {
    ghost as_word = { λ number. number };

    fn word(self) -> u32 {
        u32::from(self)
    }
}

impl Found for f32 {
    ghost as_word = { to_bits binary32 };

    fn word(self) -> u32 {
        pattern_of(self)
    }
}

// Reads until `bytes` is full, the list ends or a read fails, and answers how many bytes it put at their start,
// which `read_exact` does not tell.
pub fn read_full(list: &mut impl Read, bytes: &mut [u8]) -> usize
    ensures { result ≤ length bytes.new }
{
    let mut done = 0usize;
    while done < bytes.len() {
        match list.read(&mut bytes[done..]) {
            Ok(0) | Err(_) => break,
            Ok(count) => done += count,
        }
    }
    done
}

// A record that is replayed: what prints its first difference, the list that it is read from, and whether it
// has differed so far.
#[derive(Drop)]
pub struct Replay<'a, P, L> {
    pub rt: &'a P,
    pub list: &'a mut L,
    pub differs: bool,
}

impl<'a, P: Print, L: Read> Replay<'a, P, L> {
    // The next word, unless the list ends before it does.
    fn next(&mut self) -> Option<u32>
        ensures { self.new.differs ≡ self.old.differs }
    {
        let mut bytes = [0u8; 4];
        if read_full(self.list, &mut bytes) < 4 {
            return None;
        }
        Some(u32::from_le_bytes(bytes))
    }

    // The next word of a call. One that is not there is 0: the answer after it is not there either.
    pub fn given(&mut self) -> u32 {
        self.next().unwrap_or(0)
    }

    // The two words of a number of 64 bits, low word first: a bit number, or a line. They are read one by one, and not
    // as eight bytes, since a list may end between them.
    pub fn two_words(&mut self) -> u64 {
        let low = u64::from(self.given());
        low + 0x1_0000_0000 * u64::from(self.given())
    }

    // The next lines of a call, as many as there is room for.
    pub fn read_lines(&mut self, lines: &mut [f32]) {
        for line in lines.iter_mut() {
            *line = float_of(self.given());
        }
    }

    pub fn lines<const N: usize>(&mut self) -> [f32; N] {
        let mut lines = [0.0f32; N];
        self.read_lines(&mut lines);
        lines
    }

    // The next bytes of a call, its orders or its indices. Those that are not there are 0.
    pub fn bytes<const N: usize>(&mut self) -> [u8; N] {
        let mut bytes = [0u8; N];
        read_full(self.list, &mut bytes);
        bytes
    }

    // Compares what is found with the next word of the record's answer. The first that differs is printed: a word
    // that is not there as 2^64 - 1.
    pub fn compare<F: Found>(&mut self, found: F)
        ensures { IsTrue self.old.differs → IsTrue self.new.differs }
    {
        let expected = self.next();
        let found = found.word();
        if self.differs || expected == Some(found) {
            return;
        }
        self.differs = true;
        let expected = expected.map_or(u64::MAX, u64::from);
        let _ = print!(self.rt; "expected {expected}, found {found}");
    }

    // Compares all of it, one after the other.
    pub fn compare_all<F: Found>(&mut self, found: &[F])
        ensures { IsTrue self.old.differs → IsTrue self.new.differs }
    {
        for one in found {
            self.compare(*one);
        }
    }
}
