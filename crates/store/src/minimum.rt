// The lesser of two numbers that may be absent. Assumes nothing.
ghost use Rattle.std.specs.Prelude.{◌≡◌};
ghost use Rattle.store.specs.Lesser.{lesser_of};

// The minimum of those that are there; absent if both are.
pub fn lesser(a: Option<u32>, b: Option<u32>) -> Option<u32>
    ensures result { result ≡ lesser_of a b }
{
    a.into_iter().chain(b).min()
}
