//! The hash space.

ghost use Rattle.std.specs.Prelude.{◌≡◌, ◌<◌, true};
ghost use Rattle.ring_names.specs.Space.{is_space};
ghost use Rattle.ring_space.specs.Place.{place_of, place_at, log2};

use crate::found::Place;
use md5::{Digest, Md5};

fn place_by(q: u32, digest: [u8; 16]) -> Place
    requires { is_space q ≡ true }
    ensures place { result ≡ place_at (log2 12 q) digest }
    ensures partition { result.partition < q }
    ensures chunk { result.chunk < 16 }
{
    // How many digests a chunk has.
    let width = (1 << 124) / u128::from(q);
    let chunks = (u128::from_be_bytes(digest) / width) as u32;
    Place {
        partition: chunks / 16,
        chunk: chunks % 16,
    }
}

/// Returns a key's place among q partitions; q is a power of two from 1 to 4,096. The key's MD5 digest (RFC 1321), read
/// big-endian, decides.
///
/// The digest's first log2 q bits are the partition, the next four the chunk (DeCandia et al. 2007, sections 4.1 and
/// 6.2).
pub fn place(q: u32, key: &[u8]) -> Place
    requires { is_space q ≡ true }
    ensures place { result ≡ place_of q key.now }
    ensures partition { result.partition < q }
    ensures chunk { result.chunk < 16 }
{
    place_by(q, Md5::digest(key))
}
