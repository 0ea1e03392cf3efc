// Writing a block: its records are checked, and then its bytes, which block_bytes makes, are put into the
// caller's buffer.
#![tactic(auto)]

ghost use Rattle.block_parts.specs.Parts.{count_in};
ghost use Rattle.block_check.specs.Blocks.{write_verdict};
ghost use Rattle.block_buffer.specs.Buffers.{BlockDone};

use block_bytes::block_of;
use block_check::BlockRefusal;
use block_parts::all_sound;

// Writes the first twenty of some records, or all where there are fewer, as block `number`, and answers
// how many. A refused call writes nothing: 9 past the last block, 12 where a record is not sound, as one
// that is cut short. No records make no block. Number, bytes and block stand one by one in each call on a block, as C
// gives them.
pub fn write_block(
    number: u64,
    records: &[u8],
    block: &mut [u8; 512],
) -> Result<usize, BlockRefusal>
    ensures { BlockDone (write_verdict number records.now) count_in block.old block.new result }
{
    if records.is_empty() {
        return Ok(0);
    }
    let Ok(number) = u16::try_from(number) else {
        return Err(BlockRefusal::Length);
    };
    let taken = &records[..records.len().min(480)];
    if !all_sound(taken) {
        return Err(BlockRefusal::Record);
    }
    *block = block_of(number, taken);
    Ok(taken.len() / 24)
}
