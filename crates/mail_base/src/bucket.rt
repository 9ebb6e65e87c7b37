// Which bucket a user falls into.
ghost use Rattle.std.specs.Prelude.{◌≡◌, ◌<◌};
ghost use Rattle.mail_base.specs.Buckets.{hash_step, hash_of, bucket_at};

use crate::Name;

const OFFSET: u64 = 14_695_981_039_346_656_037;

const PRIME: u64 = 1_099_511_628_211;

fn step(hash: u64, x: u8) -> u64
    ensures { result ≡ hash_step hash x }
{
    (hash ^ u64::from(x)).wrapping_mul(PRIME)
}

/// FNV-1a of 64 bits.
fn hash(octets: &[u8]) -> u64
    ensures { result ≡ hash_of octets.now }
{
    octets.iter().fold(OFFSET, |hash, x| step(hash, *x))
}

/// The bucket of a user among so many, from 0: the FNV-1a hash of the name's octets modulo their number.
pub fn bucket_of(name: &Name, buckets: u32) -> u32
    requires { 0 < buckets }
    ensures bucket { result ≡ bucket_at name.now buckets }
    ensures below { result < buckets }
{
    (hash(name.octets()) % u64::from(buckets)) as u32
}
