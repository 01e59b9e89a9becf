//! The record that a disk in memory keeps of its writes and syncs.
ghost use Rattle.std.specs.Prelude.{◌≡◌, ◌+◌, reverse};
ghost use Rattle.pk_disk.specs.Crash.{crashed};
ghost use Rattle.pk_disk.specs.Disk.{in_range};
ghost use Rattle.pk_disk.specs.Memory.{open_after};

// A call of the past. A write keeps the bytes that it replaced, so that the bytes of an earlier
// moment follow from those of now.
#[derive(Drop)]
pub enum Call {
    Write(u64, Vec<u8>),
    Sync,
}

// Whether these calls, the oldest first, left a position open. It looks no further back than the
// last sync.
fn left_open(calls: &[Call], position: usize) -> bool
    ensures { result ≡ open_after (reverse calls.now) position }
{
    let mut n = calls.len();
    while n > 0 {
        n -= 1;
        match &calls[n] {
            Call::Sync => return false,
            Call::Write(at, before) => {
                if covers(*at, before.len(), position) {
                    return true;
                }
            }
        }
    }
    false
}

// Whether a position is one of the `len` positions from `at` on.
fn covers(at: u64, len: usize, position: usize) -> bool
    ensures { result ≡ in_range at len position }
{
    let start = at as usize;
    start <= position && position - start < len
}

// Puts the picks at the positions that the calls left open, in ascending order.
fn put_picks(bytes: &mut [u8], calls: &[Call], picks: &[u8])
    ensures { bytes.new ≡ crashed (open_after (reverse calls.now)) 0 bytes.old picks.now }
{
    let mut next = 0;
    for position in 0..bytes.len() {
        if next < picks.len() && left_open(calls, position) {
            bytes[position] = picks[next];
            next += 1;
        }
    }
}

// The bytes, with the picks at the positions that the calls left open.
pub fn with_picks(mut bytes: Vec<u8>, calls: &[Call], picks: &[u8]) -> Vec<u8>
    ensures { result.items ≡ crashed (open_after (reverse calls.now)) 0 bytes.items picks.now }
{
    put_picks(&mut bytes, calls, picks);
    bytes
}
