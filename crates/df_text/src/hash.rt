//! The hash of a key and the shard on which the key stands: FNV-1a of 64 bits (Fowler, Noll and Vo).

ghost use Rattle.std.specs.Prelude.{◌≡◌, ◌≢◌, ◌%◌};
ghost use Rattle.df_model.specs.Hash as hashes;

/// The hash of no bytes.
const OFFSET_BASIS: u64 = 0xcbf29ce484222325;

/// What the hash is multiplied by after each byte.
const PRIME: u64 = 0x100000001b3;

/// FNV-1a of 64 bits: each byte goes in by exclusive or before the prime is multiplied in.
pub fn fnv64(key: &[u8]) -> u64
    ensures { result ≡ hashes.fnv64 key.now }
{
    let mut hash = OFFSET_BASIS;
    'bytes: for &byte in key {
        hash = (hash ^ u64::from(byte)).wrapping_mul(PRIME);
    }
    hash
}

/// The shard on which a key stands, from 0.
pub fn shard_of(key: &[u8], shards: u32) -> u32
    requires { shards ≢ 0 }
    ensures { result ≡ hashes.shard_of key.now shards }
{
    shard_at(fnv64(key), shards)
}

/// The shard on which a key of this hash stands, from 0: for a caller that has hashed the key already.
pub fn shard_at(hash: u64, shards: u32) -> u32
    requires { shards ≢ 0 }
    ensures { result ≡ hash % shards }
{
    (hash % u64::from(shards)) as u32
}
