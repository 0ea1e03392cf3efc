// What is left over of a piece of input after its whole units, be they records or blocks: it is moved to
// the start of the piece, and waits there for the next read. It knows nothing of reading.
//
// Both functions have a `requires`. That a unit has a byte at least the code of each caller says; that no
// more was read than the piece has is what the read before it promises (io_streams).
#![tactic(auto)]

ghost use Rattle.std.specs.Prelude.{◌≡◌, ◌≤◌, ◌<◌, length};
ghost use Rattle.io_rest.specs.Rest.{whole_bytes, KeepsRest};

// How many of the first `read` bytes are whole units of `size` bytes.
pub fn whole_bytes(size: usize, read: usize) -> usize
    requires { 0 < size }
    ensures { result ≡ whole_bytes size read }
{
    size * (read / size)
}

// Keeps what is left over of the first `read` bytes of `piece`, at its start, and answers how many bytes
// that is.
pub fn keep_rest(piece: &mut [u8], size: usize, read: usize) -> usize
    requires { (0 < size) × (read ≤ length piece.old) }
    ensures { KeepsRest size read piece.old piece.new result }
{
    let whole = whole_bytes(size, read);
    piece.copy_within(whole..read, 0);
    read - whole
}
