// Counts, one for each flag.
ghost use Rattle.std.specs.Prelude.{◌≡◌, ◌<◌, ◌≤◌, ◌+◌, ◌^◌, ℕ, OnOk, length, replicate, slice_index};
ghost use Rattle.consensus_calc.specs.Counting.{added_counts, one_if};

use dir_bytes::Memory;

/// So many counts of nothing, in place of what is in `counts`.
pub fn zeros(count: usize, counts: &mut Vec<u64>) -> Result<(), Memory>
    ensures { OnOk result (counts.new.items ≡ replicate count 0) }
{
    counts.clear();
    'counts: for _i in 0..count {
        counts.push(0)?;
    }
    Ok(())
}

/// Counts one more, where both tests hold.
pub fn add(first: &[bool], second: &[bool], counts: &mut Vec<u64>)
    requires first { length first.now ≡ length counts.old.items }
    requires second { length second.now ≡ length counts.old.items }
    requires room { (k : ℕ) → slice_index counts.old.items k + 1 < 2 ^ 64 }
    ensures { counts.new.items ≡ added_counts first.now second.now counts.old.items }
{
    'counts: for i in 0..counts.len() {
        counts[i] += one_if(first[i], second[i]);
    }
}

/// One where both hold, and else nothing.
fn one_if(first: bool, second: bool) -> u64
    ensures value { result ≡ one_if first second }
    ensures within { result ≤ 1 }
{
    if first && second { 1 } else { 0 }
}
