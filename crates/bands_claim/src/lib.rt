// The bands of a reach: how many there can be, and the claims that test 19 passes exactly the bands that cover every flow once, and that their
// order moves no number.
#![tactic(auto)]

ghost use Rattle.std.specs.Prelude.{◌≡◌};
ghost use Rattle.model.specs.Ranges.{band_section};
ghost use Rattle.model.specs.BandClaim.{BandsCover, OrderFree};

use limits::BANDS;

// "a count (0 to 32)"
pub fn most_bands() -> u32
    ensures value { result ≡ band_section.counts.high }
    ensures bands_cover { BandsCover }
    ensures order_free { OrderFree }
{
    BANDS.counts.high
}
