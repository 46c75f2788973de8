//! Words of bits, in lists of equal length.
ghost use Rattle.std.specs.Prelude.{◌≡◌, ℕ, ◌<◌, ◌^◌, length, slice_index, sum_by, count_ones};

/// Puts in place of each word what the operation makes of it and of the other list's word there.
pub(crate) fn combine<F: Fn(u64, u64) -> u64>(words: &mut [u64], others: &[u64], operation: F)
    requires count { length words.old ≡ length others.now }
    requires callable { F.IsAlwaysCallable operation }
    ensures fits { (k : ℕ) → k < length words.old → (slice_index others.now k < 2 ^ 64)
        × (slice_index words.new k < 2 ^ 64) }
    ensures made { (k : ℕ) → k < length words.old
        → F.post operation (slice_index words.old k) (slice_index others.now k)
        (slice_index words.new k) }
{
    for (k, other) in others.iter().enumerate() {
        words[k] = operation(words[k], *other);
    }
}

/// How many bits of the words are set.
pub(crate) fn count_set_bits(words: &[u64]) -> usize
    requires { sum_by count_ones words.now < 2 ^ 64 }
    ensures { result ≡ sum_by count_ones words.now }
{
    let mut count = 0;
    for word in words {
        count += word.count_ones() as usize;
    }
    count
}
