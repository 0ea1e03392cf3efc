// Paths of files as bytes: as C takes one, its folder, and the name under which a file is made beside it.
// It knows nothing of what the system does with a name.
#![tactic(auto)]

ghost use Rattle.std.specs.Prelude.{◌≡◌, ◌≢◌, [], slice_index, EachIndex, MatchOption};
ghost use Rattle.text_put.specs.Text.{after};
ghost use Rattle.io_paths.specs.Paths.{IsCPath, IsLastSlash, CountsFolder, part_of};

use text_put::Text;

// A path as C takes it: up to 4,095 bytes, and zeros behind them.
pub fn c_path(path: &[u8]) -> [u8; 4096]
    ensures { IsCPath path.now result }
{
    let mut copied = [0u8; 4096];
    let count = path.len().min(4095);
    copied[..count].copy_from_slice(&path[..count]);
    copied
}

// The place of a path's last slash, if it has one.
fn last_slash(path: &[u8]) -> Option<usize>
    ensures { MatchOption result (EachIndex path.now (λ k. slice_index path.now k ≢ 47)) (IsLastSlash path.now) }
{
    path.iter().rposition(|b| *b == b'/')
}

// How many bytes of a path name its folder: up to its last slash, with it.
#[tactic(auto, using(crate::proofs::Slashes::counts_folder))]
pub fn folder_of(path: &[u8]) -> usize
    ensures { CountsFolder path.now result }
{
    last_slash(path).map_or(0, |last| last + 1)
}

// The name under which a file is made, in the folder of its own, as much of it as there is room for.
#[tactic(auto, using(text_put::proofs::Pieces::pieces))]
pub fn part_name<const ROOM: usize>(path: &[u8], number: u64) -> Text<ROOM>
    ensures { result ≡ after ROOM [] (part_of path.now number) }
{
    let mut name = Text::new();
    name.put(&path[..folder_of(path)]);
    name.put_numbered(b"tns-rescue-", number);
    name.put(b".part");
    name
}
