//! Tags, by which a block whose bytes changed is told, and sums of tags. Each has 32 bytes.
//! Rule: IMAGE, Layout 3.
ghost use Rattle.std.specs.Prelude.{◌≡◌, length};
ghost use Rattle.byteorder.specs.Endian.{little_bytes};
ghost use Rattle.sha2.specs.Hashers.{Holds256};
ghost use Rattle.journal.specs.Tags.{tag_of, xor_bytes};

use byteorder::{ByteOrder, LittleEndian};
use sha2::{Digest, Sha256};

/// What becomes the tag of block `b` once its 1,024 bytes are added.
pub(crate) fn begin_tag(b: u16) -> Sha256
    ensures { Holds256 result (little_bytes 2 b) }
{
    let mut number = [0; 2];
    LittleEndian::write_u16(&mut number, b);
    let mut hasher = Sha256::new();
    hasher.update(number.as_slice());
    hasher
}

/// The tag of block `b` with these 1,024 bytes.
pub fn tag_of(b: u16, bytes: &[u8; 1024]) -> [u8; 32]
    ensures { result ≡ tag_of b bytes.now }
{
    tag_of_bytes(b, bytes.as_slice())
}

// The tag of block `b` with these bytes, which are 1,024.
pub(crate) fn tag_of_bytes(b: u16, bytes: &[u8]) -> [u8; 32]
    ensures { result ≡ tag_of b bytes.now }
{
    let mut hasher = begin_tag(b);
    hasher.update(bytes);
    hasher.finalize()
}

/// Takes the tag `old` out of a sum, and puts the tag `new` in.
pub fn exchange(sum: &mut [u8; 32], old: &[u8; 32], new: &[u8; 32])
    ensures { sum.new ≡ xor_bytes (xor_bytes sum.old old.now) new.now }
{
    add(sum, old);
    add(sum, new);
}

/// Puts a tag into a sum, or takes it out again.
pub fn add(sum: &mut [u8; 32], tag: &[u8; 32])
    ensures { sum.new ≡ xor_bytes sum.old tag.now }
{
    for i in 0..32 {
        sum[i] ^= tag[i];
    }
}
