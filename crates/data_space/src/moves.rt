//! Moves of bytes, one by one in meaning.
//!
//! A part that is no longer than the distance between source and target stores nothing into what it reads itself, so it
//! is copied as a whole. Where it stores into what a later part reads, that part copies what was stored, as it would
//! byte by byte. Where the distance is small, bytes are copied one by one.
ghost use Rattle.std.specs.Prelude.{◌≡◌, ◌+◌, ◌-◌, ◌≤◌, length, ℕ};
ghost use Rattle.data_space.specs.Space.{bytes_at, with_bytes, moved_up, moved_down};
ghost use Rattle.data_space.specs.Apart.{AreApart};

/// From which distance on parts are copied as a whole: shorter ones take longer than their bytes.
const LONG: usize = 256;

/// Copies `n` bytes, the lowest first.
pub(crate) fn copy_up(bytes: &mut [u8], from: usize, to: usize, n: usize)
    requires source { from + n ≤ length bytes.old }
    requires target { to + n ≤ length bytes.old }
    ensures { bytes.new ≡ moved_up bytes.old from to n }
{
    let distance = from.abs_diff(to);
    if distance < LONG {
        return bytes_up(bytes, from, to, n);
    }
    let mut done = 0;
    while done < n {
        let part = distance.min(n - done);
        copy_apart(bytes, from + done, to + done, part);
        done += part;
    }
}

/// Copies `n` bytes, the highest first.
pub(crate) fn copy_down(bytes: &mut [u8], from: usize, to: usize, n: usize)
    requires source { from + n ≤ length bytes.old }
    requires target { to + n ≤ length bytes.old }
    ensures { bytes.new ≡ moved_down bytes.old from to n }
{
    let distance = from.abs_diff(to);
    if distance < LONG {
        return bytes_down(bytes, from, to, n);
    }
    let mut rest = n;
    while rest > 0 {
        let part = distance.min(rest);
        rest -= part;
        copy_apart(bytes, from + rest, to + rest, part);
    }
}

fn bytes_up(bytes: &mut [u8], from: usize, to: usize, n: usize)
    requires source { from + n ≤ length bytes.old }
    requires target { to + n ≤ length bytes.old }
    ensures { bytes.new ≡ moved_up bytes.old from to n }
{
    let mut i = 0;
    while i < n {
        bytes[to + i] = bytes[from + i];
        i += 1;
    }
}

fn bytes_down(bytes: &mut [u8], from: usize, to: usize, n: usize)
    requires source { from + n ≤ length bytes.old }
    requires target { to + n ≤ length bytes.old }
    ensures { bytes.new ≡ moved_down bytes.old from to n }
{
    let mut rest = n;
    while rest > 0 {
        rest -= 1;
        bytes[to + rest] = bytes[from + rest];
    }
}

/// Copies `n` bytes as a whole.
fn copy_apart(bytes: &mut [u8], from: usize, to: usize, n: usize)
    requires source { from + n ≤ length bytes.old }
    requires target { to + n ≤ length bytes.old }
    requires apart { AreApart from to n }
    ensures { bytes.new ≡ with_bytes bytes.old to (bytes_at bytes.old from n) }
{
    if from < to {
        let (low, high) = bytes.split_at_mut(to);
        high[..n].copy_from_slice(&low[from..from + n]);
    } else {
        let (low, high) = bytes.split_at_mut(from);
        low[to..to + n].copy_from_slice(&high[..n]);
    }
}
