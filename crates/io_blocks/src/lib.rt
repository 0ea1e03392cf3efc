// What the blocks in some bytes become: the records of a narration's blocks, or the blocks of records, up
// to the first that is refused. It knows nothing of reading and writing. What one portion of the bytes
// becomes is in io_portion.
#![tactic(auto)]

ghost use Rattle.std.specs.Prelude.{◌≤◌, length};
ghost use Rattle.io_blocks.specs.PutBlocks.{PutsBlocks};

use block_check::BlockRefusal;
use io_portion::Way;
use text_put::Text;

// The number of the block that is next, or is refused, and how the blocks of a piece ended.
#[derive(Clone, Copy)]
pub struct Done {
    pub next: u64,
    pub ended: Result<(), BlockRefusal>,
}

// Puts what the blocks in some bytes become, and nothing before it, the first of this number, up to the first that
// is refused. What is left over of the bytes is a block too. It takes any numbers and bytes; the promise is for a
// piece of input and room for what becomes of it.
pub fn put_blocks<W: Way<ROOM>, const ROOM: usize>(
    number: u64,
    bytes: &[u8],
    out: &mut Text<ROOM>,
) -> Done
    ensures { (number ≤ 65536) × (length bytes.now ≤ 61440) × (66048 ≤ ROOM) → PutsBlocks W.SIZE W.verdict number bytes.now out.new result }
{
    out.clear();
    // counted beside the chunks, since `Done` says at which number they end
    let mut next = number;
    for portion in bytes.chunks(W::SIZE) {
        if let Err(why) = W::put_block(next, portion, out) {
            return Done {
                next,
                ended: Err(why),
            };
        }
        next += 1;
    }
    Done {
        next,
        ended: Ok(()),
    }
}
