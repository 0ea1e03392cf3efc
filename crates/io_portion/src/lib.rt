// What one portion of input becomes, which is one block: the records of a block, or the block of records,
// or why it is refused. It knows nothing of reading and writing.
#![tactic(auto, using(text_put::proofs::Pieces::pieces))]

ghost use Rattle.std.specs.Prelude.{◌≡◌, ◌≤◌, ◌<◌, ◌+◌, ◌*◌, ◌/◌, List, ℕ, length};
ghost use Rattle.check_verdicts.specs.Verdicts.{Verdict};
ghost use Rattle.block_check.specs.Blocks.{read_verdict, write_verdict};
ghost use Rattle.io_portion.specs.OnePortion.{IsWay, PutsPortion};
ghost use Rattle.io_portion.specs.WayLaws.{reads_blocks, writes_blocks};

use block_check::{BlockRefusal, check_block};
use block_write::write_block;
use io_rest::whole_bytes;
use text_put::Text;

// A way through a narration, as a type with no value: from its blocks to their records, or from records to their
// blocks.
pub trait Way<const ROOM: usize> {
    // How many bytes of input a block is, and what it gives or why it is refused.
    ghost SIZE: { ℕ };

    ghost verdict: { ℕ → List ℕ → Verdict (List ℕ) };

    // How many bytes of a block that is cut short are known to be whole.
    ghost known: { ℕ → ℕ };

    const SIZE: usize;

    // Puts what becomes of a portion behind what was put before, and of one that is refused nothing. It requires a
    // portion that has a byte: whoever cuts input into portions has them. Its arguments are those of a call on a block.
    fn put_block(number: u64, portion: &[u8], out: &mut Text<ROOM>) -> Result<(), BlockRefusal>
        requires { 0 < length portion.now }
        ensures { PutsPortion (verdict number portion.now) ROOM out.old out.new result };

    fn known(held: usize) -> usize
        ensures { result ≡ known held };

    ghost is_way: { IsWay SIZE verdict known };
}

// From a narration to its records.
#[derive(Clone, Copy, Debug, PartialEq, Eq)]
pub struct ToRecords;

impl<const ROOM: usize> Way<ROOM> for ToRecords {
    ghost SIZE = { 512 };

    ghost verdict = { read_verdict };

    ghost known = { λ held. 0 };

    ghost is_way = { reads_blocks };

    const SIZE: usize = 512;

    fn put_block(number: u64, portion: &[u8], out: &mut Text<ROOM>) -> Result<(), BlockRefusal> {
        let count = check_block(number, portion)?;
        out.put(&portion[8..8 + 24 * count]);
        Ok(())
    }

    // A block that is cut short is none.
    fn known(_held: usize) -> usize {
        0
    }
}

// From records to their narration.
#[derive(Clone, Copy, Debug, PartialEq, Eq)]
pub struct ToBlocks;

impl<const ROOM: usize> Way<ROOM> for ToBlocks {
    ghost SIZE = { 480 };

    ghost verdict = { write_verdict };

    ghost known = { λ held. 24 * (held / 24) };

    ghost is_way = { writes_blocks };

    const SIZE: usize = 480;

    fn put_block(number: u64, portion: &[u8], out: &mut Text<ROOM>) -> Result<(), BlockRefusal> {
        let mut block = [0u8; 512];
        write_block(number, portion, &mut block)?;
        out.put(&block);
        Ok(())
    }

    // The records that were read.
    fn known(held: usize) -> usize {
        whole_bytes(24, held)
    }
}
