// Reads a narration, a block file (docs/FORMAT.md), from standard input, and writes its records of 24
// bytes, up to the first block that is refused. What a block becomes is proved; that it is read and
// written is tested.
#![tactic(auto)]

use io_portion::ToRecords;
use io_transfer::transfer;

fn main(rt: HostRuntime) {
    transfer::<ToRecords>(&rt);
}
