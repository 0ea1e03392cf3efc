// What becomes of one block of a damaged narration: it is kept, under the number that it takes among
// those kept, or it has a fault. Which it is, block_kept says.
#![tactic(auto)]

ghost use Rattle.std.specs.Prelude.{take};
ghost use Rattle.block_rescue.specs.Rescue.{RescueDone};

use block_bytes::numbered;
use block_check::BlockRefusal;
use block_kept::check_kept;

// Rescues the block in the first 512 of some bytes, as the one of this number: an accepted call writes
// it to `block` as it becomes, and answers the number that stood in it. A refused one writes nothing.
#[tactic(auto, unfolding(block_kept::specs::Kept::kept_checks, crate::specs::Rescue::rescue_verdict))]
pub fn rescue_block(number: u64, bytes: &[u8], block: &mut [u8; 512]) -> Result<u16, BlockRefusal>
    ensures { RescueDone number (take 512 bytes.now) block.old block.new result }
{
    let own = check_kept(bytes)?;
    let Ok(number) = u16::try_from(number) else {
        return Err(BlockRefusal::Length);
    };
    // not by `first_chunk`, whose answer would be unwrapped here: `check_kept` has looked at the length already
    let mut kept = [0u8; 512];
    kept.copy_from_slice(&bytes[..512]);
    *block = numbered(number, kept);
    Ok(own)
}
