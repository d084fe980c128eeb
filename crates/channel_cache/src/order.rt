//! Numbers in order.

ghost use Rattle.std.specs.Prelude.{◌≡◌, ℕ, not};
ghost use Rattle.std.specs.List.Sorted.{IsSorted, IsStrictlyIncreasing};
ghost use Rattle.std.specs.Ordering.{nat_cmp};
ghost use Rattle.channel_cache.specs.Stands.{has};

/// Whether a number is none of these, which is found by halves. Allocates nothing.
pub fn lacks(numbers: &[u64], number: u64) -> bool
    requires { IsSorted nat_cmp numbers.now }
    ensures { result ≡ not (has numbers.now number) }
{
    numbers.binary_search(&number).is_err()
}

/// Puts numbers in order, each once. Allocates nothing.
pub fn in_order(numbers: &mut Vec<u64>)
    ensures has { (number : ℕ) → has numbers.new.items number ≡ has numbers.old.items number }
    ensures rises { IsStrictlyIncreasing numbers.new.items }
{
    numbers.sort_unstable();
    numbers.dedup();
}
