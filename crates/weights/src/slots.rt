// Where a table of values looks for a value first: any number of values may have one place.
ghost use Rattle.std.specs.Prelude.{◌≡◌, ◌<◌};
ghost use Rattle.weights.specs.slots.Bucket.{bucket_of, slot_count};

// The place of a value.
pub fn bucket(v: u64) -> usize
    ensures { (result ≡ bucket_of v) × (result < slot_count) }
{
    let lo = v % 262144 * 2654435769;
    let hi = v / 262144 % 262144 * 2246822519;
    ((lo + hi) / 134217728 % super::SLOTS as u64) as usize
}
