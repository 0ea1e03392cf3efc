// The rescue of a block of a damaged narration, as C and Rust call it.
ghost use Rattle.std.specs.Prelude.{take};
ghost use Rattle.tns.specs.Rescue.{TnsRescues};

use answer_block::{RescueTold, rescue_told};
use block_rescue::rescue_block;

// Rescues a block as the one of this number, as `block_rescue::rescue_block`. A refused call writes
// nothing.
pub fn tns_block_rescue(number: u64, bytes: &[u8], block: &mut [u8; 512]) -> RescueTold
    ensures { TnsRescues number (take 512 bytes.now) block.old block.new result }
{
    let answer = rescue_block(number, bytes, block);
    rescue_told(answer)
}
