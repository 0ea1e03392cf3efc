// The first reading of a damaged file, in pieces of a fixed size: it counts the blocks to keep, so that
// nothing is written where there are too many. What comes of a read is promised by what the read gave.
//
// The inner functions take a reading that is ready for a piece more (`Ready` of io_reading): counts that leave room for
// those of one more, less than a block held, a read left to make. So `count_pass` begins, and so each turn is proved
// to leave it where it goes on. That a read stays within its piece is a promise of io_streams.
#![tactic(auto)]

ghost use Rattle.std.specs.Prelude.{◌≡◌, false, ◌≤◌, length};
ghost use Rattle.io_streams.specs.Reads.{Within};
ghost use Rattle.io_reading_count.specs.FirstReading.{CountsPiece, CountsRead, Turns};

use file_kept::count_kept;
use io_progress::{Progress, erase, shown};
use io_reading::{Input, Named, Ready, Standing};
use io_rest::{keep_rest, whole_bytes};
use io_streams::Read;

// Ready for a piece more, however many blocks are kept so far: there is room for their count.
type CountReady = Ready<0x3FFF_FFFF_FFFF_FFFF>;

// Counts the blocks to keep among the whole ones of the first `read` bytes. What is left of the bytes is held. The count
// `read` is a sum, of what was held and what came: a type of such counts would be made in `answered` and taken apart here.
#[tactic(auto, using(crate::proofs::Counting::few_kept))]
fn counted(input: &mut Input, ready: CountReady, read: usize) -> Standing
    requires { read ≤ 61440 }
    ensures { CountsPiece ready.standing read input.old input.new result }
{
    let standing = ready.standing;
    let blocks = read / 512;
    let whole = whole_bytes(512, read);
    let kept = count_kept(&input[..whole]);
    let held = keep_rest(input, 512, read);
    Standing {
        place: standing.place + blocks as u64,
        kept: standing.kept + kept as u64,
        held,
        goes_on: true,
        is_well: false,
        ..standing
    }
}

// What comes of a read, by what it gave.
fn answered(got: Read, input: &mut Input, ready: CountReady) -> Standing
    requires { Within ready.standing.held (length input.old) got }
    ensures { CountsRead got ready.standing input.old input.new result }
{
    let standing = ready.standing;
    let held = standing.held;
    match got {
        Read::Bytes(count) => counted(input, ready, held + count),
        Read::End => standing.ended(true),
        Read::Failed => standing.ended(false),
    }
}

// One read, and what comes of it.
fn count_turn(
    rt: &HostRuntime,
    file: Named,
    input: &mut Input,
    ready: CountReady,
    shows: Progress,
) -> Standing
    ensures { Turns ready.standing result }
{
    let got = file.read(rt, shows, input, ready.standing.held);
    let stands = answered(got, input, ready);
    stands.after_read(rt, file.name, shows)
}

// Reads the file to its end, and answers how many blocks it has, how many are kept and how many bytes are
// left over.
pub fn count_pass(rt: &HostRuntime, file: Named, progress: Progress) -> Standing
    ensures { result.goes_on ≡ false }
{
    let mut input = [0; 61440];
    let mut standing = Standing::begun();
    let mut shows = progress;
    // Until the input ends: no place is counted. The second reading has a loop of its own, since its turn takes and gives
    // other things: one for both would be a trait with laws.
    while standing.goes_on {
        standing = count_turn(rt, file, &mut input, Ready { standing }, shows);
        shows = shown(rt, shows, standing.place);
    }
    erase(rt, shows);
    standing
}
