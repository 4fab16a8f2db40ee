// The forecast: the longest horizon that one can have, and the claims that it says what as many step calls and reports would have said, alone and on a
// pool, and that demand 3 holds of its copies.
#![tactic(auto)]

ghost use Rattle.std.specs.Prelude.{◌≡◌};
ghost use Rattle.model.specs.Ranges.{most_steps};
ghost use Rattle.forecast_model.specs.ForecastClaim.{ForecastSays, ForecastNear, PoolForecastSays};

use limits::STEPS;

// From step 0 of the longest run to its end.
pub fn most_horizon() -> u32
    ensures value { result ≡ most_steps }
    ensures forecast_says { ForecastSays }
    ensures forecast_near { ForecastNear }
    ensures pool_forecast_says { PoolForecastSays }
{
    STEPS.high
}
