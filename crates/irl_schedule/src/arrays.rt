ghost use Rattle.std.specs.Prelude.{◌≡◌, [], ℕ, IfOk};
ghost use Rattle.irl_schedule.specs.Arrays.{AreArrays, waiting_at};

use irl_array::Array;
use irl_offer::Settings;
use std::alloc::{AllocError, Global};

/// An empty array for each bucket, with the room that the settings say.
pub fn arrays_of(alloc: Global, settings: &Settings) -> Result<Vec<Array>, AllocError>
    ensures are { IfOk result (λ arrays. AreArrays settings.now arrays.items) }
    ensures empty { IfOk result (λ arrays. (b : ℕ) → waiting_at arrays.items b ≡ []) }
{
    let mut arrays = Vec::with_capacity(alloc, settings.buckets as usize)?;
    for _b in 0..settings.buckets {
        arrays.push_reserved(Array::with_room(alloc, settings.array)?);
    }
    Ok(arrays)
}
