// The parts of a block of a narration: up to twenty records in 512 bytes, with its number, a header, fill
// and two sums. Each part has a test of its own. The tests of a block take its 512 bytes: the call has
// checked the length, refusal 9, before it looks at a part, and no test looks again.
#![tactic(auto)]

ghost use Rattle.std.specs.Prelude.{◌≡◌, ◌≤◌};
ghost use Rattle.block_parts.specs.Parts.{count_in, sums_right, header_right, number_right, fill_right, sound_records};

use block_numbers::{Sums, sums_of, word_of};
use block_record::is_sound;
use check_limits::none_over;

// Whether some bytes are whole records, each of them sound.
pub fn all_sound(bytes: &[u8]) -> bool
    ensures { result ≡ sound_records bytes.now }
{
    bytes.chunks(24).all(is_sound)
}

// Whether both sums are those of the bytes before them.
#[tactic(auto, unfolding(crate::specs::Parts::sums_right))]
pub fn are_sums_right(block: &[u8; 512]) -> bool
    ensures { result ≡ sums_right block.now }
{
    let written = Sums {
        plain: word_of(block[508], block[509]),
        weighted: word_of(block[510], block[511]),
    };
    written == sums_of(block)
}

// Whether the header is right apart from the number.
#[tactic(auto, unfolding(crate::specs::Parts::header_right))]
pub fn is_header_right(block: &[u8; 512]) -> bool
    ensures { result ≡ header_right block.now }
{
    (1..=20).contains(&block[2]) && block[3] == 1 && none_over(&block[4..8], 0)
}

// Whether the block has this number.
pub fn is_number_right(number: u64, block: &[u8; 512]) -> bool
    ensures { result ≡ number_right number block.now }
{
    u64::from(word_of(block[0], block[1])) == number
}

// Whether the fill is zeros. It requires that the block counts at most 20 records, which a right header
// does: the header is checked before the fill.
pub fn is_fill_right(block: &[u8; 512]) -> bool
    requires { count_in block.now ≤ 20 }
    ensures { result ≡ fill_right block.now }
{
    let stop = 8 + 24 * usize::from(block[2]);
    none_over(&block[stop..508], 0)
}
