// The checks of a block, in the order of refusals 9 to 12.
ghost use Rattle.std.specs.Prelude.{◌≡◌, not, ◌≤◌};
ghost use Rattle.check_verdicts.specs.Verdicts.{number_of, accepted, on_accepted, check, verdict_by};
ghost use Rattle.block_parts.specs.Parts.{count_of, count_in, records_in, sound_records};
ghost use Rattle.block_check.specs.Blocks.{block_verdict, read_verdict};
ghost use Rattle.block_check.specs.Told.{block_fault};

use block_parts::{all_sound, are_sums_right, is_fill_right, is_header_right, is_number_right};

// Why a block is refused, in the order of the numbers 9 to 12: a short block, or one too many;
// its sums; its header, number or fill; a record that is not sound.
#[derive(Clone, Copy, Debug, PartialEq, Eq)]
pub enum BlockRefusal {
    Length = 9,
    Sums,
    Layout,
    Record,
}

impl BlockRefusal {
    // The number of docs/RULES.md, "Block files (C-11)".
    pub fn number(self) -> u8
        ensures { result ≡ number_of (block_fault self) }
    {
        self as u8
    }
}

// How many records a block has whose header is right, or refusal 12.
fn records_of(block: &[u8; 512]) -> Result<usize, BlockRefusal>
    requires { count_in block.now ≤ 20 }
    ensures { verdict_by block_fault result ≡ on_accepted count_of (check 12 (not (sound_records (records_in block.now))) (accepted (records_in block.now))) }
{
    let count = usize::from(block[2]);
    let stop = 8 + 24 * count;
    if all_sound(&block[8..stop]) {
        return Ok(count);
    }
    Err(BlockRefusal::Record)
}

// Checks 10 to 12.
#[tactic(auto, using(block_parts::proofs::Counted::few_records), unfolding(crate::specs::Blocks::block_verdict))]
fn judged(number: u16, block: &[u8; 512]) -> Result<usize, BlockRefusal>
    ensures { verdict_by block_fault result ≡ on_accepted count_of (block_verdict number block.now) }
{
    if !are_sums_right(block) {
        return Err(BlockRefusal::Sums);
    }
    if !(is_header_right(block)
        && is_number_right(u64::from(number), block)
        && is_fill_right(block))
    {
        return Err(BlockRefusal::Layout);
    }
    records_of(block)
}

// Checks block `number` in the first 512 of some bytes, and answers how many records it gives: they
// stand in it from byte 8 on. No bytes hold no block, and give no records.
#[tactic(auto, using(crate::proofs::Verdicts::no_bytes, crate::proofs::Verdicts::some_bytes, crate::proofs::Verdicts::short_bytes, crate::proofs::Verdicts::past_bytes))]
pub fn check_block(number: u64, bytes: &[u8]) -> Result<usize, BlockRefusal>
    ensures { verdict_by block_fault result ≡ on_accepted count_of (read_verdict number bytes.now) }
{
    if bytes.is_empty() {
        return Ok(0);
    }
    let (Some(block), Ok(number)) = (bytes.first_chunk::<512>(), u16::try_from(number)) else {
        return Err(BlockRefusal::Length);
    };
    judged(number, block)
}
