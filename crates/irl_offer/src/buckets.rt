ghost use Rattle.std.specs.Prelude.{◌≡◌, ◌<◌};
ghost use Rattle.irl_offer.specs.Buckets.{IsBucketCount, bucket_of as bucket_of_key};

/// The bucket of a key, of so many buckets, a power of two from 1 to 64: the number that the key's top bits give.
pub fn bucket_of(key: u64, buckets: u32) -> u32
    requires { IsBucketCount buckets }
    ensures value { result ≡ bucket_of_key buckets key }
    ensures within { result < buckets }
{
    ((u128::from(key) * u128::from(buckets)) >> 64) as u32
}
