// Whether one block of a damaged narration is kept, or which fault it has. Which number stands in it is no
// fault. It demands nothing. What becomes of a block that is kept is in block_rescue.
#![tactic(auto)]

ghost use Rattle.std.specs.Prelude.{◌≡◌, take};
ghost use Rattle.check_verdicts.specs.Verdicts.{on_accepted, verdict_by};
ghost use Rattle.block_parts.specs.Parts.{number_in};
ghost use Rattle.block_check.specs.Told.{block_fault};
ghost use Rattle.block_kept.specs.Kept.{kept_verdict};

use block_check::{BlockRefusal, check_block};
use block_numbers::word_of;

// Whether the first 512 of some bytes are a block to keep: the number that stands in it, or its first
// fault. A block is read as the one that it says it is, so that its number is right whatever it is.
pub fn check_kept(bytes: &[u8]) -> Result<u16, BlockRefusal>
    ensures { verdict_by block_fault result ≡ on_accepted (λ _. number_in bytes.now) (kept_verdict (take 512 bytes.now)) }
{
    let [low, high, ..] = bytes else {
        return Err(BlockRefusal::Length);
    };
    let own = word_of(*low, *high);
    check_block(u64::from(own), bytes)?;
    Ok(own)
}
