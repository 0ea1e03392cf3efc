// Text in ASCII, put piece by piece into a room of fixed size. It knows nothing of reading and writing, and
// demands nothing: what there is no room for is left out.
#![tactic(auto, using(crate::proofs::Pieces::pieces))]

ghost use Rattle.std.specs.Prelude.{◌≡◌, ◌≤◌, ◌++◌, List, [], ℕ, length, take};
ghost use Rattle.text_put.specs.Text.{after, decimal};

use std::marker::Model;

// The bytes that were put, one after the other, at most `ROOM` of them.
// No `fmt::Write`: `write!` promises its bytes only where it answers Ok, and no clause says that it does.
#[derive(Drop)]
pub struct Text<const ROOM: usize> {
    bytes: [u8; ROOM],
    len: usize,
}

// Clauses see the bytes that were put.
impl<const ROOM: usize> Model for Text<ROOM> {
    ghost Value = { List ℕ };

    ghost view = { λ t. take t.len t.bytes };

    ghost invariant = { λ t. t.len ≤ ROOM };
}

impl<const ROOM: usize> Text<ROOM> {
    pub fn new() -> Self
        ensures { result ≡ [] }
    {
        Text {
            bytes: [0; ROOM],
            len: 0,
        }
    }

    // So many of these bytes, as another has filled them. It requires no more than there are, as whoever filled them
    // promises.
    pub fn filled(bytes: [u8; ROOM], len: usize) -> Self
        requires { len ≤ ROOM }
        ensures { result ≡ take len bytes.entry }
    {
        Text { bytes, len }
    }

    // Puts a text, as much of it as there is room for.
    pub fn put(&mut self, text: &[u8])
        ensures { self.new ≡ after ROOM self.old text.now }
    {
        let count = text.len().min(ROOM - self.len);
        let all = &mut self.bytes[..];
        all[self.len..self.len + count].copy_from_slice(&text[..count]);
        self.len += count;
    }

    // The same of a number in decimal. The kit's `io::decimal` writes the digits to a list and answers their count.
    pub fn put_decimal(&mut self, n: u64)
        ensures { self.new ≡ after ROOM self.old (decimal n) }
    {
        let mut digits = [0u8; 20];
        let count = io::decimal(n, &mut digits);
        self.put(&digits[..count]);
    }

    // The same of a text with a number behind it.
    pub fn put_numbered(&mut self, text: &[u8], n: u64)
        ensures { self.new ≡ after ROOM self.old (text.now ++ decimal n) }
    {
        self.put(text);
        self.put_decimal(n);
    }

    // What was put.
    pub fn as_bytes(&self) -> &[u8]
        ensures bytes { result.now ≡ self.now }
        ensures fits { length result.now ≤ ROOM }
    {
        &self.bytes[..self.len]
    }

    // Nothing is put any more.
    pub fn clear(&mut self)
        ensures { self.new ≡ [] }
    {
        self.len = 0;
    }
}
