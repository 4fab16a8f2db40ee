// The flow of a segment and its half-step numbers: document 01, "Flow and half-step numbers", and document 02, 2 and 6, with tests 10 to 12,
// on values.
#![tactic(auto)]

ghost use Rattle.std.specs.Prelude.{false, ◌≡◌, ◌*◌, ◌^◌, ◌<◌, ◌≤◌, pos, nat_abs, ◌+ℤ◌};
ghost use Rattle.std.specs.Int.Signed.{lt_z};
ghost use Rattle.rounding.specs.Nearest.{S, parts};
ghost use Rattle.model.specs.Ranges.{flows};
ghost use Rattle.model.specs.Flow.{own_gain, flow};
ghost use Rattle.model.specs.HalfStep.{ad, natural, rate_of, rounded, numbers};
ghost use Rattle.model.specs.Load.{flow_fault, face_fault};
ghost use Rattle.terms.specs.Says.{reach_says, hydraulics_say, numbers_say};
ghost use Rattle.halfstep.specs.Ranges.{most_gain, Lateral};
ghost use Rattle.halfstep.specs.Site.{site_says, cut, Fields, Passes, StandFor};

use rounding::signed::floor_div;
use terms::{Hydraulics, Numbers, Reach};

// What the half-step numbers of a segment are worked out from: its reach, its A, D and AS, the AD above and below, its flow, whether it is
// the last of the river, and the sheet's dt and dx.
// A site has any fields, for which test 10 has to answer (what may not change); so what tests 10 and 11 leave of it is a clause of the methods behind them.
#[derive(Clone, Copy)]
pub struct Site {
    pub own: Reach,
    pub hydraulics: Hydraulics,
    pub above: u64,
    pub below: u64,
    pub flow: i64,
    pub last: bool,
    pub dt: u32,
    pub dx: u32,
}

// The highest flow, in mL/s.
const HIGHEST_FLOW: i64 = limits::FLOW.high as i64;

// "AD is A × D of a segment".
pub fn ad(x: Hydraulics) -> u64
    ensures { result ≡ ad (hydraulics_say x) }
{
    rounding::product(x.area, x.dispersion)
}

// A segment's own gain: (qin − qout) × dx. Here and below `own` and `dx` stay two parameters: the descent has them apart, so that a struct of them is
// no plainer, as it would be made and read for these calls alone; and so `Lateral` stays in their contracts.
#[tactic(auto, unfolding(model::specs::Flow::own_gain))]
fn share(own: Reach, dx: u32) -> i64
    requires { Lateral (reach_says own) dx }
    ensures { (result ≡ own_gain (reach_says own) dx) × (nat_abs result ≤ 10 ^ 12) }
{
    (i64::from(own.qin) - i64::from(own.qout)) * i64::from(dx)
}

// The gain of the segments before the next one.
pub fn gain_below(gain: i64, own: Reach, dx: u32) -> i64
    requires { Lateral (reach_says own) dx × (nat_abs gain ≤ most_gain) }
    ensures { result ≡ gain +ℤ own_gain (reach_says own) dx }
{
    gain + share(own, dx)
}

// The flow at the top, the gain of the segments before and half of the segment's own, rounded down once. There are 100,000 cm to
// the km, and twice as many for twice the sum.
#[tactic(auto, unfolding(model::specs::Flow::flow))]
pub fn flow(top: u32, gain: i64, own: Reach, dx: u32) -> i64
    requires { Lateral (reach_says own) dx × (nat_abs gain ≤ most_gain) }
    ensures { result ≡ flow top gain (own_gain (reach_says own) dx) }
{
    i64::from(top) + floor_div(2 * gain + share(own, dx), 200000)
}

// Q as the formulas read it.
pub fn discharge(flow: i64) -> u64
    ensures { result ≡ natural flow }
{
    u64::try_from(flow).unwrap_or(0)
}

impl Site {
    // 10. "A flow is below 0 or above 100,000,000".
    #[tactic(auto, unfolding(model::specs::Load::flow_fault))]
    pub fn flow_fault(self) -> bool
        ensures { result ≡ flow_fault (site_says self) }
    {
        self.flow < 0 || HIGHEST_FLOW < self.flow
    }

    // Q × dx.
    #[tactic(auto, unfolding(model::specs::Load::flow_fault))]
    fn carried(self) -> u64
        requires { (self.dx ≤ 10 ^ 4) × (flow_fault (site_says self) ≡ false) }
        ensures { (result ≡ natural self.flow * self.dx) × (result ≤ 10 ^ 12) }
    {
        discharge(self.flow) * u64::from(self.dx)
    }

    // 11. "Q × dx exceeds AD own + AD below".
    #[tactic(auto, unfolding(model::specs::Load::face_fault))]
    pub fn face_fault(self) -> bool
        requires { Fields (site_says self) × (flow_fault (site_says self) ≡ false) }
        ensures { result ≡ face_fault (site_says self) }
    {
        ad(self.hydraulics) + self.below < self.carried()
    }

    // What crosses a face of the segment: dt × x / (4 × A × dx²).
    fn crossing(self, x: u64) -> u32
        requires { Fields (site_says self) × (x ≤ 3 * 10 ^ 12) }
        ensures { result ≡ cut (parts (self.dt * x) (4 * self.hydraulics.area * (self.dx * self.dx))) }
    {
        rounding::parts(
            u64::from(self.dt) * x,
            4 * u64::from(self.hydraulics.area) * rounding::product(self.dx, self.dx),
        )
    }

    // dt × (Q × dx + AD above + AD own) / (4 × A × dx²).
    #[tactic(auto, unfolding(model::specs::HalfStep::numbers, model::specs::HalfStep::fractions))]
    fn e(self) -> u32
        requires { Passes (site_says self) }
        ensures { result ≡ cut (numbers (site_says self)).e }
    {
        self.crossing(self.carried() + self.above + ad(self.hydraulics))
    }

    // dt × (AD own + AD below − Q × dx) / (4 × A × dx²); 0 in the last segment.
    #[tactic(auto, unfolding(model::specs::HalfStep::numbers, model::specs::HalfStep::fractions))]
    fn g(self) -> u32
        requires { Passes (site_says self) }
        ensures { result ≡ cut (numbers (site_says self)).g }
    {
        if self.last {
            0
        } else {
            self.crossing(ad(self.hydraulics) + self.below - self.carried())
        }
    }

    // dt × qin / (2 × 10⁵ × A).
    #[tactic(auto, unfolding(model::specs::HalfStep::numbers, model::specs::HalfStep::fractions))]
    fn l(self) -> u32
        requires { Fields (site_says self) }
        ensures { result ≡ cut (numbers (site_says self)).l }
    {
        rounding::parts(
            rounding::product(self.dt, self.own.qin),
            200000 * u64::from(self.hydraulics.area),
        )
    }

    // dt × rate / (2 × 10⁹), for a, k, ks, h and m.
    fn rate(self, rate: u32) -> u32
        ensures { result ≡ cut (rounded (rate_of self.dt rate)) }
    {
        rounding::parts(rounding::product(self.dt, rate), 2000000000)
    }

    // dt × ALPHA × A / (2 × 10⁹ × AS).
    #[tactic(auto, unfolding(model::specs::HalfStep::numbers, model::specs::HalfStep::fractions))]
    fn b(self) -> u32
        requires { Fields (site_says self) }
        ensures { result ≡ cut (numbers (site_says self)).b }
    {
        let x = self.hydraulics;
        rounding::parts(
            rounding::product(self.dt, self.own.alpha) * u64::from(x.area),
            2000000000 * u64::from(x.area2),
        )
    }

    // dt × LAMHAT × RHO × Kd / (2 × 10¹⁵), worked out where h is at most one whole: elsewhere the product may be wider than 64 bits, and
    // the segment is refused 12 whatever s is.
    #[tactic(auto, unfolding(model::specs::HalfStep::numbers, model::specs::HalfStep::fractions))]
    fn s(self, h: u32) -> u32
        requires { Fields (site_says self) × (h ≡ cut (numbers (site_says self)).h) }
        ensures { (numbers (site_says self)).h ≤ S → result ≡ cut (numbers (site_says self)).s }
    {
        if rounding::WHOLE < u64::from(h) {
            return 0;
        }
        rounding::parts(
            rounding::product(self.dt, self.own.lamhat)
                * u64::from(self.own.rho)
                * u64::from(self.own.kd),
            2000000000000000,
        )
    }

    // The ten half-step numbers; one part above one whole stands for all that is more.
    #[tactic(auto, unfolding(model::specs::HalfStep::numbers, model::specs::HalfStep::fractions))]
    pub fn numbers(self) -> Numbers
        requires { Passes (site_says self) }
        ensures { StandFor (numbers_say result) (numbers (site_says self)) }
    {
        let own = self.own;
        let h = self.rate(own.lamhat);
        Numbers {
            e: self.e(),
            g: self.g(),
            l: self.l(),
            a: self.rate(own.alpha),
            b: self.b(),
            k: self.rate(own.lambda),
            ks: self.rate(own.lambda2),
            h,
            m: self.rate(own.lamhat2),
            s: self.s(h),
        }
    }
}
