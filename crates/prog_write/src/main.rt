// Reads records of 24 bytes from standard input, and writes them as a narration, a block file
// (docs/FORMAT.md), up to the first block that is refused. What a block becomes is proved; that it is read and
// written is tested.
#![tactic(auto)]

use io_portion::ToBlocks;
use io_transfer::transfer;

fn main(rt: HostRuntime) {
    transfer::<ToBlocks>(&rt);
}
