// The lent log: entries of one length, from byte 0 on.
ghost use Rattle.std.specs.Prelude.{◌≡◌, ◌+◌, ◌*◌, ◌<◌, ◌≤◌, length};
ghost use Rattle.scheme.specs.Steps.{listed};
ghost use Rattle.slip.specs.Writes.{written};
ghost use Rattle.session.specs.Logs.{chunks};

// Writes an entry over the log from a place on. It takes the log alone, and is the one place where a log is written.
pub(crate) fn write_entry(log: &mut [u8], place: usize, entry: &[u8])
    requires { place + length entry.now ≤ length log.old }
    ensures { log.new ≡ written place entry.now log.old }
{
    log[place..place + entry.len()].copy_from_slice(entry);
}

// Whether a hash is one of the first entries, each of `size` bytes.
pub(crate) fn holds(log: &[u8], count: usize, size: usize, hash: &[u8]) -> bool
    requires size { 0 < size }
    requires room { count * size ≤ length log.now }
    ensures { result ≡ listed (chunks size count log.now) hash.now }
{
    log.chunks_exact(size)
        .take(count)
        .any(|entry| entry == hash)
}
