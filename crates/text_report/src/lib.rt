// The lines of a rescue's report, put into a text one after the other.
#![tactic(auto, using(text_put::proofs::Pieces::pieces))]

ghost use Rattle.std.specs.Prelude.{◌≡◌};
ghost use Rattle.check_verdicts.specs.Verdicts.{numbered};
ghost use Rattle.text_put.specs.Text.{after};
ghost use Rattle.file_rescued.specs.Rescues.{dropped, moved, stray, kept_entries, left_entries};
ghost use Rattle.text_report.specs.ReportText.{entry_text, report_text};

use text_put::Text;

// A block that is dropped, with its fault, which is a number, as in text_refusal.
fn put_dropped<const ROOM: usize>(place: u64, fault: u8, out: &mut Text<ROOM>)
    ensures { out.new ≡ after ROOM out.old (entry_text (dropped place (numbered fault))) }
{
    out.put_numbered(b"block ", place);
    out.put_numbered(b" dropped ", u64::from(fault));
    out.put(b"\n");
}

// A block that is renumbered. It is like `put_counts` of text_summary in form alone: each has texts of its own.
fn put_moved<const ROOM: usize>(place: u64, old: u64, new: u64, out: &mut Text<ROOM>)
    ensures { out.new ≡ after ROOM out.old (entry_text (moved place old new)) }
{
    out.put_numbered(b"block ", place);
    out.put_numbered(b" renumbered ", old);
    out.put_numbered(b" to ", new);
    out.put(b"\n");
}

// A block that is kept: nothing where it has its old number.
#[tactic(auto, unfolding(crate::specs::ReportText::report_text), using(text_put::proofs::Pieces::pieces))]
pub fn put_kept<const ROOM: usize>(place: u64, old: u64, new: u64, out: &mut Text<ROOM>)
    ensures { out.new ≡ after ROOM out.old (report_text (kept_entries place old new)) }
{
    if old == new {
        // a put of nothing, for the reason that stands in text_summary
        out.put(b"");
    } else {
        put_moved(place, old, new, out);
    }
}

// The bytes behind the last whole block.
fn put_stray<const ROOM: usize>(count: u64, out: &mut Text<ROOM>)
    ensures { out.new ≡ after ROOM out.old (entry_text (stray count)) }
{
    out.put_decimal(count);
    out.put(b" stray bytes\n");
}

// So many bytes that are not kept: a block with its fault, or what is no whole block, whose fault is not said. The
// promise is of any fault, as in text_refusal.
#[tactic(auto, unfolding(crate::specs::ReportText::report_text), using(text_put::proofs::Pieces::pieces))]
pub fn put_left<const ROOM: usize>(place: u64, size: u64, fault: u8, out: &mut Text<ROOM>)
    ensures { out.new ≡ after ROOM out.old (report_text (left_entries place size (numbered fault))) }
{
    if size < 512 {
        put_stray(size, out);
    } else {
        put_dropped(place, fault, out);
    }
}
