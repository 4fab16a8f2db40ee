// Demand 3: how far the figures of a river may be off its exact river, and the claim that they are no further.
#![tactic(auto)]

ghost use Rattle.std.specs.Prelude.{◌≡◌, ◌*◌};
ghost use Rattle.model.specs.Claim.{Demand3, LoadedLists};

// After `steps` accepted steps since the latest accepted start, in ng/L for channel and storage, and times Kd, in pg/g, for sediment.
pub fn most_off(steps: u32) -> u64
    ensures value { result ≡ 6 * steps }
    ensures demand3 { Demand3 }
    ensures loaded_lists { LoadedLists }
{
    6 * (steps as u64)
}
