// The second reading of a damaged file, in pieces of a fixed size: it writes what the blocks become, if a file is
// made of them, and says the report. What is to be written and said after a read, and where the reading stands
// then, is promised by what the read gave (`answered`); that it is written and said is not.
//
// The inner functions take a reading that is ready for a piece more (`Ready` of io_reading): a place that leaves room
// for those of one more, a number that there is or the one after the last, less than a block held, a read left to
// make. `mend_turn` requires that and at most 255 records for each block that is kept. So `mend_pass` begins, and so
// each turn is proved to leave it where it goes on. That a read stays within its piece is a promise of io_streams; that
// the count `read` does stays a clause, `read ≤ 61440`: it is a sum, of what was held and what came, and a type of such
// counts would be made in `answered` and taken apart in `blocks_mended`.
#![tactic(auto)]

ghost use Rattle.std.specs.Prelude.{◌≡◌, false, Bool, IfOk, ◌*◌, ◌^◌, ◌≤◌, ◌<◌, length};
ghost use Rattle.io_streams.specs.Reads.{Within, most_reads};
ghost use Rattle.io_reading_mend.specs.SecondReading.{whole_blocks, has_numbers, MendsPiece, TellsRest, TakesPiece, MendsRead, at_start, tallied, broken_off, settled_as, Turns, Reached};

use file_kept::{count_kept, count_records};
use io_names::{LONGEST, complain_of_change};
use io_progress::{Progress, erase, give_way, put_name, shown};
use io_reading::{Input, Named, Ready, Standing};
use io_rescue::rescue_piece;
use io_rest::{keep_rest, whole_bytes};
use io_streams::{Read, write_as, write_to};
use text_put::Text;

// Where the second reading stands: as a reading does, how many records the blocks have that are kept so far, and
// whether the report has a line.
#[derive(Clone, Copy)]
pub struct Mending {
    pub standing: Standing,
    pub records: u64,
    pub is_reported: bool,
}

// What comes of a read: where the reading stands then, and how many records the blocks have that are to be written.
#[derive(Clone, Copy)]
struct Turned {
    standing: Standing,
    records: usize,
}

// Why the reading breaks off, with nothing to write or to say of the file's blocks: a read has failed, which was said,
// or the file has turned out to be another than it was.
#[derive(Clone, Copy, Debug, PartialEq, Eq)]
enum Break {
    Failed,
    Changed,
}

// Ready for a piece more: the next block that is kept has a number, or the one after the last.
type MendReady = Ready<65536>;

// A piece of the file; what becomes of its 120 blocks, and what is said of them, with room for a line for each.
#[derive(Drop)]
struct Pieces {
    input: Input,
    output: Text<61440>,
    report: Text<9960>,
}

// The most records that a file's blocks have: 255 in each of the 65,536 blocks for which there are numbers.
const MOST_RECORDS: u64 = 255 * 65536;

// How many blocks may be kept so far with numbers left for all those of a piece.
const SURE: u64 = 65416;

// Whether there are numbers for those of a piece's whole blocks that are kept. Of 120 blocks that is asked only where it
// may not be so.
#[tactic(auto, using(file_kept::proofs::PieceBounds::kept_120))]
fn has_numbers(ready: MendReady, blocks: &[u8]) -> bool
    requires { length blocks.now ≤ 61440 }
    ensures { result ≡ has_numbers ready.standing.kept blocks.now }
{
    let kept = ready.standing.kept;
    if kept <= SURE {
        return true;
    }
    let more = count_kept(blocks);
    kept + more as u64 <= 65536
}

impl Pieces {
    // Rescues the whole blocks of the first `read` bytes. What is left of the bytes is held.
    fn blocks_mended(&mut self, ready: MendReady, read: usize) -> Turned
        requires { read ≤ 61440 }
        ensures { MendsPiece ready.standing read self.old.input self.new.input self.new.output self.new.report result }
    {
        let standing = ready.standing;
        let blocks = read / 512;
        let whole = whole_bytes(512, read);
        let kept = rescue_piece(
            standing.place,
            standing.kept,
            &self.input[..whole],
            &mut self.output,
            &mut self.report,
        );
        let records = count_records(self.output.as_bytes());
        let held = keep_rest(&mut self.input, 512, read);
        Turned {
            standing: Standing {
                place: standing.place + blocks as u64,
                kept,
                held,
                goes_on: true,
                is_well: false,
                ..standing
            },
            records,
        }
    }

    // A piece. The first reading has seen to it that there are numbers for its blocks; where there are none, the
    // file is another by now.
    fn piece_mended(&mut self, ready: MendReady, read: usize) -> Result<Turned, Break>
        requires { read ≤ 61440 }
        ensures { TakesPiece (has_numbers ready.standing.kept (whole_blocks read self.old.input)) ready.standing read self.old.input self.new.input self.new.output self.new.report result }
    {
        let whole = whole_bytes(512, read);
        if !has_numbers(ready, &self.input[..whole]) {
            return Err(Break::Changed);
        }
        Ok(self.blocks_mended(ready, read))
    }

    // The file has ended: what is held are stray bytes.
    fn rest_told(&mut self, ready: MendReady) -> Turned
        ensures { TellsRest ready.standing self.old.input self.new.output self.new.report result }
    {
        let standing = ready.standing;
        let held = standing.held;
        rescue_piece(
            standing.place,
            standing.kept,
            &self.input[..held],
            &mut self.output,
            &mut self.report,
        );
        Turned {
            standing: standing.ended(true),
            records: 0,
        }
    }

    // What comes of a read, by what it gave.
    fn answered(&mut self, got: Read, ready: MendReady) -> Result<Turned, Break>
        requires { Within ready.standing.held (length self.old.input) got }
        ensures { MendsRead got ready.standing self.old.input self.new.input self.new.output self.new.report result }
    {
        let held = ready.standing.held;
        match got {
            Read::Bytes(count) => self.piece_mended(ready, held + count),
            Read::End => Ok(self.rest_told(ready)),
            Read::Failed => Err(Break::Failed),
        }
    }

    // Writes what was put after a read: the blocks to the file that is made, if one is, and then what is said of
    // them, to a terminal in the place of how far the run is.
    fn is_put(&self, rt: &HostRuntime, made: Option<Named>, shows: Progress) -> bool {
        if let Some(made) = made {
            let mut name = Text::<LONGEST>::new();
            put_name(shows, made.name, &mut name);
            let mut file = made.file;
            if !write_to(rt, &mut file, name.as_bytes(), self.output.as_bytes()) {
                return false;
            }
        }
        if self.report.as_bytes().is_empty() {
            return true;
        }
        give_way(rt, shows);
        let mut name = Text::<64>::new();
        put_name(shows, b"standard output", &mut name);
        write_as(rt, name.as_bytes(), self.report.as_bytes())
    }
}

impl Mending {
    // The second reading begins.
    fn started() -> Mending
        ensures { result ≡ at_start }
    {
        Mending {
            standing: Standing::begun(),
            records: 0,
            is_reported: false,
        }
    }

    // What has come of a read is added to what was found before, with what is said of it. It could be written, or not.
    fn added(self, turned: Turned, report: &[u8], is_written: bool) -> Mending
        requires { (self.records ≤ MOST_RECORDS) × (turned.records ≤ MOST_RECORDS) }
        ensures { result ≡ tallied is_written self turned report.now }
    {
        Mending {
            standing: turned.standing.after_write(is_written),
            records: self.records + turned.records as u64,
            is_reported: self.is_reported || !report.is_empty(),
        }
    }

    // The reading breaks off: what was found before stays.
    fn broken(self) -> Mending
        ensures { result ≡ broken_off self }
    {
        Mending {
            standing: self.standing.ended(false),
            ..self
        }
    }
}

// Where the second reading stands once what has come of a read is written, or that the file has changed is said.
fn settled(
    rt: &HostRuntime,
    name: &[u8],
    made: Option<Named>,
    pieces: &Pieces,
    mending: Mending,
    came: Result<Turned, Break>,
    shows: Progress,
) -> Mending
    requires before { mending.records ≤ MOST_RECORDS }
    requires few { IfOk came (λ turned. turned.records ≤ MOST_RECORDS) }
    ensures { (written : Bool) × (result ≡ settled_as written mending came pieces.now.report) }
{
    match came {
        Ok(turned) => {
            let is_written = pieces.is_put(rt, made, shows);
            mending.added(turned, pieces.report.as_bytes(), is_written)
        }
        Err(why) => {
            if why == Break::Changed {
                erase(rt, shows);
                complain_of_change(rt, name);
            }
            mending.broken()
        }
    }
}

// One read, what comes of it, and where the reading stands once that is written. Its clauses are those of a `Ready` and
// one more, of the records. With a `Ready` in the place of the four, `mending` would stand beside it and be tied to it by
// a clause, or be taken apart for the call and put together here.
fn mend_turn(
    rt: &HostRuntime,
    file: Named,
    made: Option<Named>,
    pieces: &mut Pieces,
    mending: Mending,
    shows: Progress,
) -> Mending
    requires placed { mending.standing.place < 2 ^ 62 }
    requires kept { mending.standing.kept ≤ 65536 }
    requires unwhole { mending.standing.held < 512 }
    requires left { mending.standing.reads < most_reads }
    requires few { mending.records ≤ 255 * mending.standing.kept }
    ensures { Turns mending result }
{
    let standing = mending.standing;
    let got = file.read(rt, shows, &mut pieces.input, standing.held);
    let came = pieces.answered(got, Ready { standing });
    let stands = settled(rt, file.name, made, pieces, mending, came, shows);
    Mending {
        standing: stands.standing.after_read(rt, file.name, shows),
        ..stands
    }
}

// Reads the file to its end, writes what comes of its blocks, if a file is made of them, and says the report.
// Answers what `count_pass` does, as it was found now, how many records the kept blocks have, and whether the
// report has a line.
pub fn mend_pass(rt: &HostRuntime, file: Named, made: Option<Named>, progress: Progress) -> Mending
    ensures { (result.standing.goes_on ≡ false) × Reached result }
{
    let mut pieces = Pieces {
        input: [0; 61440],
        output: Text::new(),
        report: Text::new(),
    };
    let mut mending = Mending::started();
    let mut shows = progress;
    // Until the input ends: no place is counted. The first reading has a loop of its own, as it says.
    'turns: while mending.standing.goes_on {
        mending = mend_turn(rt, file, made, &mut pieces, mending, shows);
        shows = shown(rt, shows, progress.size / 512 + mending.standing.place);
    }
    erase(rt, shows);
    mending
}
