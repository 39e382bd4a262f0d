//! How sources and sinks in memory copy bytes: as many as fit.
ghost use Rattle.std.specs.Prelude.{◌≡◌, ◌+◌, ◌<◌, ◌≤◌, ◌++◌, [], length, take, drop, min, vec_len, vec_capacity};

// Copies the bytes from `given` on to the front of the buffer, as many as fit, and returns how many.
pub fn copy_from(contents: &[u8], given: usize, buf: &mut [u8]) -> usize
    requires { given ≤ length contents.now }
    ensures count { result ≡ min (length (drop given contents.now)) (length buf.old) }
    ensures copied { buf.new ≡ take result (drop given contents.now) ++ drop result buf.old }
    ensures consumed { drop given contents.now ≡ take result buf.new ++ drop (given + result) contents.now }
    ensures ended { result ≡ 0 → 0 < length buf.new → drop (given + result) contents.now ≡ [] }
{
    let (_, left) = contents.split_at(given);
    copy_front(left, buf)
}

// The same of the first bytes from `given` on alone, at most `piece`.
pub fn copy_piece(contents: &[u8], given: usize, piece: usize, buf: &mut [u8]) -> usize
    requires left { given ≤ length contents.now }
    requires some { 0 < piece }
    ensures count { result ≡ min (length (take piece (drop given contents.now))) (length buf.old) }
    ensures copied { buf.new ≡ take result (take piece (drop given contents.now)) ++ drop result buf.old }
    ensures consumed { drop given contents.now ≡ take result buf.new ++ drop (given + result) contents.now }
    ensures ended { result ≡ 0 → 0 < length buf.new → drop (given + result) contents.now ≡ [] }
{
    let (_, left) = contents.split_at(given);
    let (first, _) = left.split_at(piece.min(left.len()));
    copy_front(first, buf)
}

// Copies bytes to the front of the buffer, as many as fit, and returns how many.
fn copy_front(from: &[u8], buf: &mut [u8]) -> usize
    ensures count { result ≡ min (length from.now) (length buf.old) }
    ensures copied { buf.new ≡ take result from.now ++ drop result buf.old }
    ensures front { take result buf.new ≡ take result from.now }
{
    let count = from.len().min(buf.len());
    buf[..count].copy_from_slice(&from[..count]);
    count
}

// Appends the first `count` bytes of a piece, for which there is room.
pub fn append_front(held: &mut Vec<u8>, piece: &[u8], count: usize)
    requires within { count ≤ length piece.now }
    requires fits { vec_len held.old + count ≤ vec_capacity held.old }
    ensures items { held.new.items ≡ held.old.items ++ take count piece.now }
    ensures len { vec_len held.new ≡ vec_len held.old + count }
    ensures capacity { vec_capacity held.old ≤ vec_capacity held.new }
{
    held.extend_from_slice(&piece[..count]).unwrap();
}
