// Parts of lent bytes: lent where they lie, written over with other bytes or with zeros, and whether they are zero.
ghost use Rattle.std.specs.Prelude.{◌≡◌, ◌+◌, ◌≤◌, length, replicate};
ghost use Rattle.model.specs.Records.{part, put, all_zero};

// n bytes from `at` on, where they lie: a pointer is a block of memory and an offset in it.
pub fn part_at(bytes: &[u8], at: usize, n: usize) -> &[u8]
    requires { at + n ≤ length bytes.now }
    ensures result_value { result.now ≡ part bytes.now at n }
    ensures place { result.ref_ptr ≡ (bytes.entry.ref_ptr.0, at + bytes.entry.ref_ptr.1) }
{
    &bytes[at..at + n]
}

// Bytes copied over the room's from `at` on.
pub fn copy_at(room: &mut [u8], at: usize, bytes: &[u8])
    requires { at + length bytes.now ≤ length room.old }
    ensures { room.new ≡ put room.old at bytes.now }
{
    // No copy_from_slice: it is memmove in machine code, and crest.h names memcpy and memset alone.
    for (i, b) in bytes.iter().enumerate() {
        room[at + i] = *b;
    }
}

// n zeros from `at` on.
pub fn clear_at(room: &mut [u8], at: usize, n: usize)
    requires { at + n ≤ length room.old }
    ensures { room.new ≡ put room.old at (replicate n 0) }
{
    room[at..at + n].fill(0);
}

// Whether all bytes are zero. Each is looked at, whatever those before it are, so that the machine takes several at a time.
pub fn all_zero(s: &[u8]) -> bool
    ensures { result ≡ all_zero s.now }
{
    s.iter().fold(true, |zero, b| zero & (*b == 0))
}
