// The calls on a block of a narration, as C and Rust call them.
ghost use Rattle.block_parts.specs.Parts.{count_of, count_in};
ghost use Rattle.block_check.specs.Blocks.{read_verdict, write_verdict};
ghost use Rattle.tns.specs.Blocks.{TnsBlock};

use answer_block::{BlockTold, block_told};
use block_read::read_block;
use block_write::write_block;

// Writes up to twenty records as block `number`, as `block_write::write_block`. A refused call writes
// nothing.
#[tactic(auto, using(block_check::proofs::Verdicts::write_few))]
pub fn tns_block_write(number: u64, records: &[u8], block: &mut [u8; 512]) -> BlockTold
    ensures { TnsBlock (write_verdict number records.now) count_in block.old block.new result }
{
    let answer = write_block(number, records, block);
    block_told(answer)
}

// Checks block `number` and writes its records, as `block_read::read_block`. A refused call writes
// nothing.
pub fn tns_block_read(number: u64, block: &[u8], records: &mut [u8; 480]) -> BlockTold
    ensures { TnsBlock (read_verdict number block.now) count_of records.old records.new result }
{
    let answer = read_block(number, block, records);
    block_told(answer)
}
