// Reading a block: its checks, and then its records into the caller's buffer.
#![tactic(auto)]

ghost use Rattle.block_parts.specs.Parts.{count_of};
ghost use Rattle.block_check.specs.Blocks.{read_verdict};
ghost use Rattle.block_buffer.specs.Buffers.{BlockDone};

use block_buffer::lay;
use block_check::{BlockRefusal, check_block};

// Reads block `number` from the first 512 of some bytes: an accepted call writes its records at the
// start of `records`, and a refused one writes nothing. No bytes give no records.
pub fn read_block(number: u64, bytes: &[u8], records: &mut [u8; 480]) -> Result<usize, BlockRefusal>
    ensures { BlockDone (read_verdict number bytes.now) count_of records.old records.new result }
{
    let count = check_block(number, bytes)?;
    if count > 0 {
        let stop = 8 + 24 * count;
        lay(&bytes[8..stop], records);
    }
    Ok(count)
}
