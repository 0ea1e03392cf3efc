// The numbers of a block that are wider than a byte: two bytes as a number, little end first, and the
// two sums that guard a block. It knows nothing of records.
#![tactic(auto)]

ghost use Rattle.std.specs.Prelude.{◌≡◌, take};
ghost use Rattle.block_numbers.specs.Words.{word_of};
ghost use Rattle.block_numbers.specs.Sums.{sums_of};

// The number of two bytes, the low one first.
pub fn word_of(low: u8, high: u8) -> u16
    ensures { result ≡ word_of low high }
{
    u16::from_le_bytes([low, high])
}

// The two sums, each modulo 65521.
#[derive(Clone, Copy, Debug, PartialEq, Eq)]
pub struct Sums {
    pub plain: u16,
    pub weighted: u16,
}

// The sums over the first 508 bytes. One pass: 508 bytes add up to less than 2 ^ 17, and weighted to
// less than 2 ^ 26, so the remainders are taken once, at the end.
pub fn sums_of(bytes: &[u8]) -> Sums
    ensures { result ≡ sums_of (take 508 bytes.now) }
{
    let summed = &bytes[..bytes.len().min(508)];
    let mut plain = 0u32;
    let mut weighted = 0u32;
    for (place, byte) in summed.iter().enumerate() {
        let byte = u32::from(*byte);
        plain += byte;
        weighted += (508 - place as u32) * byte;
    }
    Sums {
        plain: (plain % 65521) as u16,
        weighted: (weighted % 65521) as u16,
    }
}
