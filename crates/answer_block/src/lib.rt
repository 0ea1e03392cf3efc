// How the exported functions give a verdict on a block: two numbers, which C and Rust take by value. Only
// the crate `tns` calls these functions, each with what a call on a block has just answered.
#![tactic(auto)]

ghost use Rattle.std.specs.Prelude.{◌≡◌, ◌≤◌};
ghost use Rattle.check_verdicts.specs.Verdicts.{verdict_by};
ghost use Rattle.block_check.specs.Told.{block_fault, count_said};
ghost use Rattle.answer_block.specs.BlockAnswers.{block_for, rescue_for};

use block_check::BlockRefusal;

// What a call on a block answers. Refusal 0 says that it is accepted, and any other is the
// refusal's number. Records are how many the block holds, and 0 of a refused call.
#[repr(C)]
#[derive(Clone, Copy)]
pub struct BlockTold {
    pub refusal: u16,
    pub records: u16,
}

// What reading or writing a block answers. It requires at most twenty records, which the call has
// checked: no block holds more. So it is no `From`, which could not require that.
pub fn block_told(answer: Result<usize, BlockRefusal>) -> BlockTold
    requires { count_said (verdict_by block_fault answer) ≤ 20 }
    ensures { result ≡ block_for (verdict_by block_fault answer) }
{
    match answer {
        Ok(count) => BlockTold {
            refusal: 0,
            records: count as u16,
        },
        Err(why) => BlockTold {
            refusal: u16::from(why.number()),
            records: 0,
        },
    }
}

// What a call that rescues a block answers, a struct of its own, as in include/tns.h. Refusal 0 says that it is
// accepted, and any other is the refusal's number. The number is the one that stood in a block that is kept, and 0 of a refused call.
#[repr(C)]
#[derive(Clone, Copy)]
pub struct RescueTold {
    pub refusal: u16,
    pub number: u16,
}

// What a rescue answers. It is no `From`: docs/CONTRACTS.md names this function and its promise, beside `block_told`'s.
pub fn rescue_told(answer: Result<u16, BlockRefusal>) -> RescueTold
    ensures { result ≡ rescue_for (verdict_by block_fault answer) }
{
    match answer {
        Ok(number) => RescueTold { refusal: 0, number },
        Err(why) => RescueTold {
            refusal: u16::from(why.number()),
            number: 0,
        },
    }
}
