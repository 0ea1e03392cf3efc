// How many blocks of a damaged narration are kept, whether there are numbers for so many, which is asked
// before any of them is written, and how many records blocks have. It demands nothing, and knows nothing of
// reading and writing.
#![tactic(auto)]

ghost use Rattle.std.specs.Prelude.{◌≡◌, ltb, length, ◌≤◌};
ghost use Rattle.law_lists.specs.Portions.{portions};
ghost use Rattle.block_parts.specs.Parts.{count_in};
ghost use Rattle.file_rescued.specs.Rescues.{kept_of};
ghost use Rattle.file_kept.specs.RecordCount.{CountsRecords};

use block_kept::check_kept;

// How many blocks of some bytes are kept. What is left over of the bytes is no block.
pub fn count_kept(bytes: &[u8]) -> usize
    ensures { result ≡ length (kept_of (portions 512 bytes.now)) }
{
    bytes
        .chunks(512)
        .filter(|block| check_kept(block).is_ok())
        .count()
}

// How many records a block has by its own count, its third byte; none where there is no such byte.
fn count_in(block: &[u8]) -> usize
    ensures { (result ≡ count_in block.now) × (result ≤ 255) }
{
    match block {
        [_, _, count, ..] => usize::from(*count),
        _ => 0,
    }
}

// How many records the blocks in some bytes have, each by its own count.
pub fn count_records(bytes: &[u8]) -> usize
    ensures { CountsRecords bytes.now result }
{
    bytes.chunks(512).map(count_in).sum()
}

// More blocks than there are numbers for.
pub fn are_too_many(kept: u64) -> bool
    ensures { result ≡ ltb 65536 kept }
{
    kept > 65536
}
