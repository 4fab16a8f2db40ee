// Lists that a caller lends: test 13 of their lengths, and one copied over another. What else is said of lists is definitions (specs/) and
// laws (proofs/).
#![tactic(auto)]

ghost use Rattle.std.specs.Prelude.{◌≡◌, ◌≤◌, length, get_or};
ghost use Rattle.lists.specs.Lists.{tab, over, any_under};

// One of these lengths is below n: "A lent list is shorter than the river".
pub fn any_short(n: usize, lengths: &[usize]) -> bool
    ensures { result ≡ any_under n lengths.now }
{
    lengths.iter().any(|length| *length < n)
}

// The first n entries of `from` over those of `to`.
// By index: `copy_from_slice` has the archive for C need `memmove` from outside.
pub fn copy(n: usize, from: &[u32], to: &mut [u32])
    requires { (n ≤ length from.now) × (n ≤ length to.old) }
    ensures { to.new ≡ over (tab 0 n (λ i. get_or from.now i 0)) to.old }
{
    for i in 0..n {
        to[i] = from[i];
    }
}
