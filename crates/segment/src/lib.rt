// One segment of a step, on values: its right sides, F and R, what it passes down, and its new figures.
#![tactic(auto)]

ghost use Rattle.std.specs.Prelude.{◌≡◌, ◌+◌, ◌*◌, ◌^◌, ◌<◌, ◌≤◌};
ghost use Rattle.rounding.specs.Nearest.{S, nearest};
ghost use Rattle.model.specs.Ranges.{highest};
ghost use Rattle.model.specs.Equations.{sum_v, channel_right, storage_right, sediment_right};
ghost use Rattle.model.specs.Sweep.{storage_quotient, sediment_quotient, row_of, under, pass, clamp, new_storage, new_sediment, new_figures};
ghost use Rattle.terms.specs.Says.{numbers_say};
ghost use Rattle.segment.specs.Says.{pair_says, figures_say, row_says, passed_says};
ghost use Rattle.segment.specs.Ready.{word, PassReady, SegmentReady, RaiseReady, FiguresReady};

use limits::HIGHEST;
use rounding::{WHOLE, nearest, nearest_tried, product};
use terms::Numbers;

// A segment in a step: its numbers on the old side and on the new side, CL and CB.
#[derive(Clone, Copy)]
pub struct Pair {
    pub old: Numbers,
    pub new: Numbers,
    pub cl: u32,
    pub cb: u32,
}

// The figures of a segment.
#[derive(Clone, Copy)]
pub struct Figures {
    pub c: u32,
    pub z: u32,
    pub w: u32,
}

// What the downward pass leaves of a segment: p and y. Beside them are F's two quotients: the segment below tries them, as it mostly has the
// same numbers.
#[derive(Clone, Copy)]
pub struct Passed {
    pub p: u64,
    pub y: u64,
    pub storage: u64,
    pub sediment: u64,
}

// What storage or sediment adds to F and to R.
#[derive(Clone, Copy)]
struct Terms {
    f: u64,
    r: u64,
}

// Storage or sediment in a step: the right side of its equation with the old numbers, and what the new ones divide it by.
// That the divisor is above 0 stays a clause of its methods: two places make a store, each beside its use, so that a ghost field is no plainer.
#[derive(Clone, Copy)]
struct Store {
    right: u64,
    divisor: u64,
}

impl Store {
    // Without the new C: P of storage, N of sediment.
    fn alone(self) -> u64
        requires { 0 < self.divisor }
        ensures { result ≡ nearest self.right self.divisor }
    {
        nearest(self.right, self.divisor)
    }

    // With the new C, by the new number: Z' of storage, W' of sediment.
    fn with(self, number: u32, c: u32) -> u64
        requires divides { 0 < self.divisor }
        requires fits { self.right + number * c < 2 ^ 64 }
        ensures { result ≡ nearest (self.right + number * c) self.divisor }
    {
        nearest(self.right + product(number, c), self.divisor)
    }

    // What it adds to a row: number × factor by the divisor to F, and number × P or N to R; nothing, and nothing is divided, where the
    // number is 0. `quotient` may be the one that F has, and is trusted for nothing.
    #[inline(always)]
    fn terms(self, number: u32, factor: u64, quotient: u64) -> Terms
        requires divides { (0 < self.divisor) × (self.divisor ≤ 2 * S) }
        requires number { number ≤ S }
        requires factor { factor ≤ self.divisor }
        requires figure { nearest self.right self.divisor ≤ highest }
        ensures f { (result.f ≡ nearest (number * factor) self.divisor) × (result.f ≤ number) }
        ensures r { (result.r ≡ number * nearest self.right self.divisor) × (result.r ≤ S * highest) }
    {
        if number == 0 {
            return Terms { f: 0, r: 0 };
        }
        let number = u64::from(number);
        Terms {
            f: nearest_tried(number * factor, self.divisor, quotient),
            r: number * self.alone(),
        }
    }
}

// What the two passes need of a segment: F, R, and the new e and g; and F's two quotients.
#[derive(Clone, Copy)]
struct Row {
    f: u64,
    r: u64,
    e: u32,
    g: u32,
    storage: u64,
    sediment: u64,
}

impl Row {
    // H, and with it p and y, from p and y above. p rests on the numbers alone: `p` may be what an earlier step found, and is trusted for
    // nothing. F's quotients are handed on.
    fn pass(self, d: Passed, p: u64) -> Passed
        requires { PassReady (row_says self) (passed_says d) }
        ensures passed { passed_says result ≡ pass (under (passed_says d)) (row_says self) }
        ensures quotients { (result.storage ≡ self.storage) × (result.sediment ≡ self.sediment) }
    {
        let e = u64::from(self.e);
        let h = self.f - nearest(e * d.p, WHOLE);
        Passed {
            p: nearest_tried(u64::from(self.g) * WHOLE, h, p),
            y: nearest(self.r + e * d.y, h),
            storage: self.storage,
            sediment: self.sediment,
        }
    }
}

// A segment that a step accepts, with its old figures.
#[derive(Clone, Copy)]
struct Segment {
    pair: Pair,
    figures: Figures,
    ghost ready: { FiguresReady (pair_says pair) (figures_say figures) },
}

impl Segment {
    // (S−T)C + eCabove + gCbelow + aZ + sW + 2lCL with the old numbers, 2l being the old l plus the new.
    fn channel_right(self, above: u32, below: u32) -> u64
        ensures { (result ≡ channel_right (pair_says self.pair) above below (figures_say self.figures)) × (result ≤ 2 * (S * word)) }
    {
        let Pair { old, new, cl, .. } = self.pair;
        let f = self.figures;
        (WHOLE - old.sum_t()) * u64::from(f.c)
            + product(old.e, above)
            + product(old.g, below)
            + product(old.a, f.z)
            + product(old.s, f.w)
            + (u64::from(old.l) + u64::from(new.l)) * u64::from(cl)
    }

    // (S−V)Z + bC + 2mCB with the old numbers, 2m being the old m plus the new, by the new S+V.
    fn storage(self) -> Store
        ensures right { result.right ≡ storage_right (pair_says self.pair) (figures_say self.figures) }
        ensures divisor { result.divisor ≡ S + sum_v (numbers_say self.pair.new) }
    {
        let Pair { old, new, cb, .. } = self.pair;
        let f = self.figures;
        Store {
            right: (WHOLE - old.sum_v()) * u64::from(f.z)
                + product(old.b, f.c)
                + (u64::from(old.m) + u64::from(new.m)) * u64::from(cb),
            divisor: WHOLE + new.sum_v(),
        }
    }

    // (S−h)W + hC with the old numbers, by the new S+h.
    fn sediment(self) -> Store
        ensures right { result.right ≡ sediment_right (pair_says self.pair) (figures_say self.figures) }
        ensures divisor { result.divisor ≡ S + self.pair.new.h }
    {
        let h = self.pair.old.h;
        let f = self.figures;
        Store {
            right: (WHOLE - u64::from(h)) * u64::from(f.w) + product(h, f.c),
            divisor: WHOLE + u64::from(self.pair.new.h),
        }
    }

    // F = S+e+g+l+k + a(S+ks+m)/(S+V) + sS/(S+h) of the new numbers, and R: the channel's right side plus aP + sN with the new a and s. F's
    // quotients are tried from those of the segment above.
    #[tactic(auto, unfolding(model::specs::Sweep::row_of, model::specs::Sweep::F, model::specs::Sweep::R, model::specs::Sweep::P, model::specs::Sweep::N))]
    fn row(self, above: u32, below: u32, d: Passed) -> Row
        requires { (above ≤ highest) × (below ≤ highest) }
        ensures row { row_says result ≡ row_of (pair_says self.pair) above below (figures_say self.figures) }
        ensures storage { result.storage ≡ storage_quotient (numbers_say self.pair.new) }
        ensures sediment { result.sediment ≡ sediment_quotient (numbers_say self.pair.new) }
    {
        let n = self.pair.new;
        let right = self.channel_right(above, below);
        let exchanged = WHOLE + u64::from(n.ks) + u64::from(n.m);
        let storage = self.storage().terms(n.a, exchanged, d.storage);
        let sediment = self.sediment().terms(n.s, WHOLE, d.sediment);
        Row {
            f: WHOLE
                + u64::from(n.e)
                + u64::from(n.g)
                + u64::from(n.l)
                + u64::from(n.k)
                + storage.f
                + sediment.f,
            r: right + storage.r + sediment.r,
            e: n.e,
            g: n.g,
            storage: storage.f,
            sediment: sediment.f,
        }
    }

    // Z' = ((S−V)Z + bC + 2mCB + bC')/(S+V): the old right side, the new b and V.
    fn new_storage(self, c: u32) -> u32
        requires { c ≤ highest }
        ensures { result ≡ new_storage (pair_says self.pair) (figures_say self.figures) c }
    {
        self.storage().with(self.pair.new.b, c) as u32
    }

    // W' = ((S−h)W + hC + hC')/(S+h): the old right side, the new h. Without sorption on either side it is W.
    fn new_sediment(self, c: u32) -> u32
        requires { c ≤ highest }
        ensures { result ≡ new_sediment (pair_says self.pair) (figures_say self.figures) c }
    {
        let Pair { old, new, .. } = self.pair;
        if old.h == 0 && new.h == 0 {
            return self.figures.w;
        }
        self.sediment().with(new.h, c) as u32
    }
}

// p and y of a segment, from p and y above, and F's two quotients of its new numbers. `p` may be the new p; it and the quotients above are
// trusted for nothing. `above` and `below` stay two numbers: a struct of them is no plainer, as it would be made and read for this call alone.
pub fn passed_down(x: Pair, above: u32, below: u32, f: Figures, d: Passed, p: u64) -> Passed
    requires { SegmentReady (pair_says x) (figures_say f) above below (passed_says d) }
    ensures { (passed_says result ≡ pass (under (passed_says d)) (row_of (pair_says x) above below (figures_say f)))
        × (result.storage ≡ storage_quotient (numbers_say x.new)) × (result.sediment ≡ sediment_quotient (numbers_say x.new)) }
{
    let segment = Segment {
        pair: x,
        figures: f,
    };
    segment.row(above, below, d).pass(d, p)
}

// y + (p × C' below)/S
pub fn raised(d: Passed, below: u64) -> u64
    requires { RaiseReady (passed_says d) below }
    ensures { (result ≡ d.y + nearest (d.p * below) S) × (result ≤ S) }
{
    d.y + nearest(d.p * below, WHOLE)
}

// The new figures of a segment, from its old ones and its uncut C': anything above the highest concentration becomes that.
#[tactic(auto, unfolding(model::specs::Sweep::new_figures))]
pub fn new_figures(x: Pair, f: Figures, raised: u64) -> Figures
    requires { FiguresReady (pair_says x) (figures_say f) }
    ensures { figures_say result ≡ new_figures (pair_says x) (figures_say f) (clamp raised) }
{
    let segment = Segment {
        pair: x,
        figures: f,
    };
    let c = raised.min(u64::from(HIGHEST)) as u32;
    Figures {
        c,
        z: segment.new_storage(c),
        w: segment.new_sediment(c),
    }
}
