// A damaged file read twice, as `rescue` and `check` read it: first its blocks to keep are counted, so that a file
// with too many is refused before anything is written or said; then they are rescued, and the report is said. And
// the line that sums it up.
//
// A reading that is answered has come to the file's end, with nothing failed. Whatever stands in the way is said here,
// and then nothing is answered.
#![tactic(auto)]

ghost use Rattle.std.specs.Prelude.{◌≡◌, ◌≤◌, true, [], IfSome};
ghost use Rattle.io_reading.specs.Stands.{same_totals};
ghost use Rattle.io_reading_mend.specs.SecondReading.{Reached};
ghost use Rattle.text_put.specs.Text.{after};
ghost use Rattle.io_read_twice.specs.Summed.{sum_text};

use file_kept::are_too_many;
use io_names::{complain_of_change, failed_at};
use io_progress::Progress;
use io_reading::{Named, Standing};
use io_reading_count::count_pass;
use io_reading_mend::{Mending, mend_pass};
use io_streams::refuse;
use std::io::{Seek, SeekFrom};
use text_put::Text;
use text_summary::put_summary;

// Whether the next read is at the file's start. A pipe has none. The answer is matched: its other arm says what
// failed, which a closure would say no more plainly.
fn is_at_start(rt: &HostRuntime, file: Named) -> bool {
    let mut input = file.file;
    match input.seek(SeekFrom::Start(0)) {
        Ok(_) => true,
        Err(reason) => {
            failed_at(rt, file.name, reason);
            false
        }
    }
}

// The first reading: how many blocks there are, how many are kept, and how many bytes are left over. There are
// numbers for all that are kept.
pub fn first_reading(rt: &HostRuntime, file: Named, progress: Progress) -> Option<Standing>
    ensures { IfSome result (λ counted. (counted.is_well ≡ true) × (counted.kept ≤ 65536)) }
{
    if !is_at_start(rt, file) {
        return None;
    }
    let counted = count_pass(rt, file, progress);
    if !counted.is_well {
        return None;
    }
    if are_too_many(counted.kept) {
        // the number as text: by `put_number` of text_answers it takes a text, three calls and two crates more
        refuse(rt, b"refused 9\n");
        return None;
    }
    Some(counted)
}

// The second reading, into the file that is made, if one is. It has found as many blocks, kept blocks and bytes left
// over as the first, and what it answers is the sum of what came of its reads.
pub fn second_reading(
    rt: &HostRuntime,
    file: Named,
    made: Option<Named>,
    counted: Standing,
    progress: Progress,
) -> Option<Mending>
    ensures { IfSome result (λ found. (found.standing.is_well ≡ true) × (same_totals counted found.standing ≡ true) × Reached found) }
{
    if !is_at_start(rt, file) {
        return None;
    }
    let found = mend_pass(rt, file, made, progress);
    if !found.standing.is_well {
        return None;
    }
    if counted.is_same(found.standing) {
        return Some(found);
    }
    complain_of_change(rt, file.name);
    None
}

// Puts the line that sums up what was found, or nothing where nothing is dropped.
pub fn put_sum<const ROOM: usize>(found: Mending, out: &mut Text<ROOM>)
    ensures { out.new ≡ after ROOM out.old (sum_text found) }
{
    let standing = found.standing;
    let stray = standing.held as u64;
    put_summary(standing.kept, standing.place, stray, found.records, out);
}

// That line by itself: there is room for the longest.
pub fn summed(found: Mending) -> Text<128>
    ensures { result ≡ after 128 [] (sum_text found) }
{
    let mut text = Text::new();
    put_sum(found, &mut text);
    text
}
