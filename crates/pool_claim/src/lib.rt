// Several rivers in one pool: how many, and the claim that each shows the figures of its own calls, and that 17 and 18 alone depend on the others.
#![tactic(auto)]

ghost use Rattle.std.specs.Prelude.{◌≡◌};
ghost use Rattle.model.specs.PoolClaim.{Sharing, OpenedLists};

// The most rivers that a pool has open.
pub fn most_rivers() -> u32
    ensures value { result ≡ 8 }
    ensures sharing { Sharing }
    ensures opened_lists { OpenedLists }
{
    8
}
