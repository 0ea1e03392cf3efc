// What the two readings of a damaged file share: where one stands between two pieces, how it begins and ends,
// one read, and whether both found the same. A piece has whole blocks; what is left of one waits for the next
// read.
//
// A reading's `Standing` is not that of io_turns, which `read`, `write` and `bits` have: it counts two things, and
// ends well or not.
#![tactic(auto)]

ghost use Rattle.std.specs.Prelude.{◌≡◌, ◌^◌, ◌≤◌, ◌<◌, true};
ghost use Rattle.io_streams.specs.Reads.{most_reads, ReadAfter};

use io_names::{LONGEST, complain_of};
use io_progress::{Progress, erase, put_name};
use io_streams::{Read, is_spent, read_from};
use std::fs::File;
use text_put::Text;

// A piece of the file, of 120 blocks.
pub type Input = [u8; 61440];

// Where a reading stands between two pieces: the place of the next block, how many are kept before it, how
// many bytes of a block not yet whole are held at the start of the piece (which is no `Text`, as in io_turns), how many
// reads were made, whether another is to be made, and whether all is well: the reading has come to the file's end, and
// nothing has failed. A reading that goes on, or was cut, is not well; but these are two flags and no enum of three
// cases, since the methods below promise their answers for all four pairs (docs/CONTRACTS.md).
#[derive(Clone, Copy)]
pub struct Standing {
    pub place: u64,
    pub kept: u64,
    pub held: usize,
    pub reads: u64,
    pub goes_on: bool,
    pub is_well: bool,
}

// Where a reading stands that is ready for a piece more: there is room for the places of its blocks, at most `KEPT`
// are kept so far, less than a block is held, and a read is left to make.
#[derive(Clone, Copy)]
pub struct Ready<const KEPT: u64> {
    pub standing: Standing,
    pub ghost placed: { standing.place < 2 ^ 62 },
    pub ghost kept: { standing.kept ≤ KEPT },
    pub ghost unwhole: { standing.held < 512 },
    pub ghost left: { standing.reads < most_reads },
}

// A file, and the name by which something is said of it.
#[derive(Clone, Copy)]
pub struct Named<'a> {
    pub file: &'a File,
    pub name: &'a [u8],
}

impl Standing {
    ghost use Rattle.io_reading.specs.Stands.{at_start, ended_as, after_read, after_write, same_totals};

    // A reading begins.
    pub fn begun() -> Standing
        ensures { result ≡ at_start }
    {
        Standing {
            place: 0,
            kept: 0,
            held: 0,
            reads: 0,
            goes_on: true,
            is_well: false,
        }
    }

    // The reading ends here, well or not.
    pub fn ended(self, is_well: bool) -> Standing
        ensures { result ≡ ended_as is_well self }
    {
        Standing {
            goes_on: false,
            is_well,
            ..self
        }
    }

    // Where a reading stands once what there was to write is written, or could not be: then it ends there.
    pub fn after_write(self, is_written: bool) -> Standing
        ensures { result ≡ after_write is_written self }
    {
        if is_written {
            return self;
        }
        self.ended(false)
    }

    // One read more is made. Where a reading goes on and none is left to make, it ends there, and that is said as a
    // failure: no run makes so many, but none may end as if it were whole. It requires that there was one left to
    // make, as both readings see to before each.
    pub fn after_read(self, rt: &HostRuntime, name: &[u8], shows: Progress) -> Standing
        requires { self.reads < most_reads }
        ensures counted { result ≡ after_read self }
        ensures left { result.goes_on ≡ true → result.reads < most_reads }
    {
        let reads = self.reads + 1;
        let next = Standing { reads, ..self };
        if is_spent(self.goes_on, reads) {
            erase(rt, shows);
            complain_of(rt, name, b": too many reads\n");
            return next.ended(false);
        }
        next
    }

    // Whether the second reading found as many blocks, kept ones and stray bytes as the first. It may not
    // have, where somebody writes to the file.
    pub fn is_same(self, mended: Standing) -> bool
        ensures { result ≡ same_totals self mended }
    {
        (self.place, self.kept, self.held) == (mended.place, mended.kept, mended.held)
    }
}

impl Named<'_> {
    // One read of the file, by its name where it fails.
    pub fn read(self, rt: &HostRuntime, shows: Progress, piece: &mut [u8], held: usize) -> Read
        ensures { ReadAfter held piece.old piece.new result }
    {
        let mut text = Text::<LONGEST>::new();
        put_name(shows, self.name, &mut text);
        let mut input = self.file;
        read_from(rt, &mut input, text.as_bytes(), piece, held)
    }
}
