// A search in a list of numbers.
ghost use Rattle.std.specs.Prelude.{◌≡◌, position, nat_le};

// Where the first number stands that is not below the end.
pub fn first_from(numbers: &[u64], end: u64) -> Option<usize>
    ensures { result ≡ position (λ n. nat_le end n) numbers.now }
{
    numbers.iter().position(|n| *n >= end)
}
