// The sheet's own river: the most steps that it can make, and the claims that none of them is refused, that they leave what the definitions say
// and that demand 3 holds of them.
#![tactic(auto)]

ghost use Rattle.std.specs.Prelude.{◌≡◌};
ghost use Rattle.model.specs.Ranges.{most_steps};
ghost use Rattle.model.specs.OwnRiverClaim.{OwnRiverSteps, OwnRiverOnwards, OwnRiverNear, RowsUpstream, OwnCallsExist};

use limits::STEPS;

// "steps M (1 to 100,000)"
pub fn most_steps() -> u32
    ensures value { result ≡ most_steps }
    ensures own_river_steps { OwnRiverSteps }
    ensures own_river_onwards { OwnRiverOnwards }
    ensures own_river_near { OwnRiverNear }
    ensures rows_upstream { RowsUpstream }
    ensures own_calls_exist { OwnCallsExist }
{
    STEPS.high
}
