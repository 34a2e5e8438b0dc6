ghost use Rattle.std.specs.Prelude.{◌≡◌};
ghost use Rattle.irl_key.specs.Key.{key_of as key};

use sha1::Sha1;

/// The first eight bytes of the SHA-1 digest (FIPS 180-4), the first byte highest. It takes no memory.
pub fn key_of(bytes: &[u8]) -> u64
    ensures { result ≡ key bytes.now }
{
    let digest = Sha1::digest(bytes);
    u64::from_be_bytes([
        digest[0], digest[1], digest[2], digest[3], digest[4], digest[5], digest[6], digest[7],
    ])
}
