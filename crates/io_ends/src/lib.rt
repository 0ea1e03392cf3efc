// How the blocks of a piece end: what was put of them is written, and then a refusal is reported, by one line
// on standard error and to the launcher. That anything is written or reported is not proved, only what the line
// says, and what is to be done next by whether the system took what was put.
#![tactic(auto)]

ghost use Rattle.std.specs.Prelude.{◌≡◌, true};
ghost use Rattle.text_put.specs.Text.{after};
ghost use Rattle.file_narration.specs.Files.{whole};
ghost use Rattle.io_blocks.specs.PutBlocks.{end_of};
ghost use Rattle.io_ends.specs.EndText.{end_text, next_of};

use io_blocks::Done;
use io_streams::{refuse, write};
use text_put::Text;
use text_refusal::put_block_refusal;

// What a program does once the blocks of a piece have ended and what was put of them is written, or could not
// be: it goes on, it stops, or it reports a refusal and stops. As a `Result` it would have two errors, one of them
// with nothing to say.
#[derive(Clone, Copy, Debug, PartialEq, Eq)]
enum Next {
    GoesOn,
    Stops,
    Tells,
}

// The line of how the blocks of a piece end: of a refusal, and nothing where there is none.
fn put_end(put: Done, line: &mut Text<64>)
    ensures { line.new ≡ after 64 line.old (end_text (end_of put.ended put.next)) }
{
    match put.ended {
        // a put of nothing, for the reason that stands in text_summary
        Ok(()) => line.put(b""),
        Err(why) => put_block_refusal(why.number(), put.next, line),
    }
}

// Reports a refusal on standard error, and to the launcher.
fn tell(rt: &HostRuntime, put: Done) {
    let mut line = Text::new();
    put_end(put, &mut line);
    refuse(rt, line.as_bytes());
}

// What is done next. Where what was put could not be written, a refusal is not reported: the blocks before it,
// which its line would name, do not stand.
fn next_of(put: Done, is_written: bool) -> Next
    ensures { result ≡ next_of (end_of put.ended put.next) is_written }
{
    if !is_written {
        return Next::Stops;
    }
    match put.ended {
        Ok(()) => Next::GoesOn,
        Err(_) => Next::Tells,
    }
}

// Writes what was put, and then reports the refusal, if there is one. Answers whether to go on.
pub fn settled<const ROOM: usize>(rt: &HostRuntime, put: Done, out: &Text<ROOM>) -> bool
    ensures { result ≡ true → end_of put.ended put.next ≡ whole }
{
    let is_written = write(rt, out.as_bytes());
    match next_of(put, is_written) {
        Next::GoesOn => true,
        Next::Stops => false,
        Next::Tells => {
            tell(rt, put);
            false
        }
    }
}
