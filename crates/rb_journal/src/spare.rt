//! Vectors that are used again, and give back the memory of a large answer.
ghost use Rattle.std.specs.Prelude.{◌≡◌, []};

/// A vector with a larger capacity than this, in bytes, gives it back once it is empty. An answer seldom needs as much.
const MOST_SPARE: usize = 2 << 20;

/// Takes all bytes out. It keeps a capacity of up to `MOST_SPARE` bytes.
pub fn take_out_all(bytes: &mut Vec<u8>)
    ensures { bytes.new.items ≡ [] }
{
    bytes.clear();
    if bytes.capacity() > MOST_SPARE {
        bytes.shrink_to(0);
    }
}
