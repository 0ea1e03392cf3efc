// What the programs that read and write narrations do alike: standard input is taken block by block to
// standard output, up to the first block that is refused. It is read in pieces of a fixed size, each of
// which holds a whole number of blocks, of either kind; what is left of one waits for the next read. What
// was read before input fails is answered as far as it is whole. What the blocks of a piece become is in
// io_blocks, how they end in io_ends, and where the program stands between two reads in io_turns. What is to be
// written after a read, and where the program stands then, is promised by what the read gave (`answered`); that it
// is written is not.
//
// The inner functions take a program that is ready for a piece more (`Ready` of io_turns): a block's number or the
// one after the last, less than a block held, a read left to make. So `transfer` begins, and so each turn is proved
// to leave it where it goes on. That a read stays within its piece is a promise of io_streams: it ties the read to the
// piece and to what is held, three values, so it stays a clause. `BlockRefusal` is named because the kit asks for the
// crate of every type that a function meets, and what was put may end with one.
#![tactic(auto)]

ghost use Rattle.std.specs.Prelude.{◌≡◌, ◌≤◌, ◌<◌, true, length};
ghost use Rattle.file_narration.specs.Files.{whole};
ghost use Rattle.io_streams.specs.Reads.{Within};
ghost use Rattle.io_turns.specs.Stands.{Settles};
ghost use Rattle.io_blocks.specs.PutBlocks.{end_of};
ghost use Rattle.io_transfer.specs.Transfer.{TakesPiece, TakesLast, AnswersRead, Turns};

use block_check::BlockRefusal;
use io_blocks::{Done, put_blocks};
use io_ends::settled;
use io_portion::Way;
use io_rest::{keep_rest, whole_bytes};
use io_streams::{Read, read_after};
use io_turns::{Ready, Standing};
use text_put::Text;

// A piece of input, of whole blocks of either kind, and one of output, with room for what becomes of them.
type Input = [u8; 61440];

const ROOM: usize = 66048;

type Output = Text<ROOM>;

// Ready for a piece more: less than a block is held, and the next block has a number or is the one after the last.
type BlockReady = Ready<512, 65536>;

// What comes of a read: where the program stands then, and what was put.
#[derive(Clone, Copy)]
struct Turned {
    standing: Standing,
    put: Done,
}

// The whole blocks of what was read; the rest is kept. The count `read` is a sum, of what was held and what came: a type
// of such counts would be made in `answered` and taken apart here. Input and output stand apart in the functions from
// here on, since each of them borrows the two in another way.
fn blocks_read<W: Way<ROOM>>(
    input: &mut Input,
    ready: BlockReady,
    read: usize,
    output: &mut Output,
) -> Turned
    requires { read ≤ 61440 }
    ensures { TakesPiece W.SIZE W.verdict ready.standing read input.old input.new output.new result }
{
    let standing = ready.standing;
    let whole = whole_bytes(W::SIZE, read);
    let put = put_blocks::<W, ROOM>(standing.number, &input[..whole], output);
    let held = keep_rest(input, W::SIZE, read);
    Turned {
        standing: Standing {
            number: put.next,
            held,
            goes_on: true,
            ..standing
        },
        put,
    }
}

// Input has ended, or failed: these bytes of what is held are the last block.
fn last_block<W: Way<ROOM>>(bytes: &[u8], ready: BlockReady, output: &mut Output) -> Turned
    requires { length bytes.now < 512 }
    ensures { TakesLast W.SIZE W.verdict ready.standing bytes.now output.new result }
{
    let standing = ready.standing;
    let put = put_blocks::<W, ROOM>(standing.number, bytes, output);
    Turned {
        standing: Standing {
            number: put.next,
            held: 0,
            goes_on: false,
            ..standing
        },
        put,
    }
}

// What comes of a read, by what it gave.
fn answered<W: Way<ROOM>>(
    got: Read,
    input: &mut Input,
    ready: BlockReady,
    output: &mut Output,
) -> Turned
    requires { Within ready.standing.held (length input.old) got }
    ensures { AnswersRead W.SIZE W.verdict W.known got ready.standing input.old input.new output.new result }
{
    let held = ready.standing.held;
    match got {
        Read::Bytes(count) => blocks_read::<W>(input, ready, held + count, output),
        Read::End => last_block::<W>(&input[..held], ready, output),
        Read::Failed => last_block::<W>(&input[..W::known(held)], ready, output),
    }
}

// Writes what was put, and answers where the program stands then: it goes on only where there is more to read,
// nothing was refused, and what was put could be written.
fn written(rt: &HostRuntime, turned: Turned, output: &Output) -> Standing
    ensures settles { Settles turned.standing result }
    ensures whole_so_far { result.goes_on ≡ true → end_of turned.put.ended turned.put.next ≡ whole }
{
    let stands = turned.standing;
    let goes_on = settled(rt, turned.put, output);
    Standing {
        goes_on: stands.goes_on && goes_on,
        ..stands
    }
}

// One read, what comes of it, and where the program stands once that is written.
fn turn<W: Way<ROOM>>(
    rt: &HostRuntime,
    input: &mut Input,
    ready: BlockReady,
    output: &mut Output,
) -> Standing
    ensures { Turns ready.standing result }
{
    let got = read_after(rt, input, ready.standing.held);
    let turned = answered::<W>(got, input, ready, output);
    let stands = written(rt, turned, output);
    stands.after_read(rt)
}

// Takes all of standard input to standard output.
pub fn transfer<W: Way<ROOM>>(rt: &HostRuntime) {
    let mut input = [0; 61440];
    let mut output = Text::new();
    let mut standing = Standing::begun();
    // until the input ends: no place is counted
    while standing.goes_on {
        standing = turn::<W>(rt, &mut input, Ready { standing }, &mut output);
    }
}
