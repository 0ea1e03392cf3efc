// What the blocks of a piece of a damaged narration become, step by step: the bytes of the file that
// comes out, and the lines of the report. How many of them are kept is asked before, of file_kept.
//
// `take_portion` has a `requires`: that a portion is no longer than a block, as `rescue_piece` cuts them.
#![tactic(auto)]

ghost use Rattle.std.specs.Prelude.{◌≤◌, length};
ghost use Rattle.io_rescue.specs.RescueSteps.{TakesPortion, HasRoom, RescuesPiece};

use block_rescue::rescue_block;
use text_put::Text;
use text_report::{put_kept, put_left};

// The next portion, by the step for a block: what it becomes is put behind what came before it, and what is said of
// it behind the lines before. Answers the number that the next block takes that is kept.
fn take_portion<const ROOM: usize, const LINES: usize>(
    place: u64,
    number: u64,
    portion: &[u8],
    out: &mut Text<ROOM>,
    report: &mut Text<LINES>,
) -> u64
    requires { length portion.now ≤ 512 }
    ensures { TakesPortion place number portion.now ROOM out.old out.new LINES report.old report.new result }
{
    let mut block = [0u8; 512];
    match rescue_block(number, portion, &mut block) {
        Err(why) => {
            put_left(place, portion.len() as u64, why.number(), report);
            number
        }
        Ok(own) => {
            out.put(&block);
            put_kept(place, u64::from(own), number, report);
            number + 1
        }
    }
}

// Rescues the blocks in some bytes, the first at this place, the first that is kept under this number: what they
// become and what is said of them is all that is put. What is left over of the bytes is stray. Answers the number
// that comes next. Nothing is promised where there is no room: for more than 120 blocks, for what they become and what is
// said of them, or for their places and numbers.
pub fn rescue_piece<const ROOM: usize, const LINES: usize>(
    place: u64,
    number: u64,
    bytes: &[u8],
    out: &mut Text<ROOM>,
    report: &mut Text<LINES>,
) -> u64
    ensures { HasRoom place number bytes.now ROOM LINES → RescuesPiece place number bytes.now out.new report.new result }
{
    out.clear();
    report.clear();
    let mut next = number;
    if place > 0x7FFF_FFFF_FFFF_FFFF || number > 65536 || bytes.len() > 61440 {
        return next;
    }
    // counted beside the chunks: with `enumerate` it would be a sum in the call and in each fact
    let mut here = place;
    for portion in bytes.chunks(512) {
        next = take_portion(here, next, portion, out, report);
        here += 1;
    }
    next
}
