// The bytes of a block as they are written: its number and its header, its records, the fill and the two
// sums. Whether the records are sound is not asked here: block_write has looked. block_rescue, which keeps
// the bytes of a block that it has checked, takes `numbered` alone.
#![tactic(auto)]

ghost use Rattle.std.specs.Prelude.{◌≡◌, ◌++◌, ◌≤◌, length, take};
ghost use Rattle.law_lists.specs.Places.{part};
ghost use Rattle.block_numbers.specs.Words.{word_bytes};
ghost use Rattle.block_parts.specs.Parts.{sum_bytes, block_bytes};

use block_numbers::sums_of;

// A block with its sums in its last four bytes.
pub fn with_sums(mut block: [u8; 512]) -> [u8; 512]
    ensures { result ≡ take 508 block ++ sum_bytes (take 508 block) }
{
    let sums = sums_of(&block);
    let both = [sums.plain.to_le_bytes(), sums.weighted.to_le_bytes()];
    block[508..].copy_from_slice(both.as_flattened());
    block
}

// A block as the one of this number: the number stands in front, the sums are fresh, and what is between them
// stays byte for byte.
pub fn numbered(number: u16, mut block: [u8; 512]) -> [u8; 512]
    ensures { result ≡ word_bytes number ++ part 2 508 block ++ sum_bytes (word_bytes number ++ part 2 508 block) }
{
    block[..2].copy_from_slice(&number.to_le_bytes());
    with_sums(block)
}

// The block of these records, all of its bytes. It requires that they are at most twenty: `write_block`, its
// one caller, takes no more.
pub fn block_of(number: u16, records: &[u8]) -> [u8; 512]
    requires { length records.now ≤ 480 }
    ensures { result ≡ block_bytes number records.now }
{
    let mut block = [0u8; 512];
    block[2] = (records.len() / 24) as u8;
    block[3] = 1;
    block[8..8 + records.len()].copy_from_slice(records);
    numbered(number, block)
}
