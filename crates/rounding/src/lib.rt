// Rounding as document 01 rounds: to the nearest with a half going up, a fraction in parts of one whole, and down.
#![tactic(auto)]

ghost use Rattle.std.specs.Prelude.{◌≡◌, ◌+◌, ◌*◌, ◌^◌, ◌<◌, ◌≤◌, min, IfSome, IfNone};
ghost use Rattle.rounding.specs.Nearest.{S, nearest, parts};

pub mod signed;

// One whole, 2^30: the S of document 01.
pub const WHOLE: u64 = 1 << 30;

// Half of one whole.
const HALF: u64 = WHOLE / 2;

// One part above one whole, which stands for all that is more than one whole.
const ABOVE: u32 = (WHOLE + 1) as u32;

// A product of two 32-bit numbers, which fits 64 bits.
pub fn product(x: u32, y: u32) -> u64
    ensures { result ≡ x * y }
{
    u64::from(x) * u64::from(y)
}

// n by one whole, to the nearest: one more than the halves of a whole in n, halved. That is two shifts.
#[tactic(auto, unfolding(crate::specs::Nearest::nearest))]
fn nearest_whole(n: u64) -> u64
    ensures { result ≡ nearest n S }
{
    (n / HALF + 1) / 2
}

// n / d to the nearest. It divides where d is not one whole.
// A divisor above 0 is a clause and no `NonZeroU64`, here and below: callers have a plain product, and it would be made for the call, no plainer.
pub fn nearest(n: u64, d: u64) -> u64
    requires { 0 < d }
    ensures { result ≡ nearest n d }
{
    if d == WHOLE {
        nearest_whole(n)
    } else {
        Split::new(n, d).rounded()
    }
}

// The same, where the quotient may be known. The candidate is trusted for nothing: its product with d is held to n, and n is divided where
// that fails.
#[tactic(auto, unfolding(crate::specs::Nearest::nearest))]
pub fn nearest_tried(n: u64, d: u64, candidate: u64) -> u64
    requires { (0 < d) × (d ≤ 2 * S) × (n ≤ 2 * (S * S)) }
    ensures { result ≡ nearest n d }
{
    if candidate <= WHOLE {
        let product = candidate * d;
        let up = n + d / 2;
        if product <= up && up - product < d {
            return candidate;
        }
    }
    nearest(n, d)
}

// The whole quotient of a division, and the rest that it leaves.
#[derive(Clone, Copy)]
struct Split {
    quotient: u64,
    rest: u64,
    divisor: u64,
    ghost rest_is_less: { rest < divisor },
}

impl Split {
    fn new(n: u64, d: u64) -> Split
        requires { 0 < d }
        ensures { (result.quotient * d + result.rest ≡ n) × (result.divisor ≡ d) × (result.quotient ≤ n) }
    {
        Split {
            quotient: n / d,
            rest: n % d,
            divisor: d,
        }
    }

    // The same without a division, for a fraction below two; no other has one.
    fn below_two(n: u64, d: u64) -> Option<Split>
        ensures some { IfSome result (λ s. (s.quotient * d + s.rest ≡ n) × (s.divisor ≡ d) × (s.quotient ≤ 1)) }
        ensures none { IfNone result (2 * d ≤ n) }
    {
        if n < d {
            Some(Split {
                quotient: 0,
                rest: n,
                divisor: d,
            })
        } else if n - d < d {
            Some(Split {
                quotient: 1,
                rest: n - d,
                divisor: d,
            })
        } else {
            None
        }
    }

    // That of twice the dividend. `rest < divisor - rest` is `2 * rest < divisor` without a product that might not fit.
    fn doubled(self) -> Split
        requires { self.quotient < 2 ^ 32 }
        ensures { (result.quotient * self.divisor + result.rest ≡ 2 * (self.quotient * self.divisor + self.rest)) × (result.divisor ≡ self.divisor)
            × (result.quotient ≤ 2 * self.quotient + 1) }
    {
        let short = self.divisor - self.rest;
        if self.rest < short {
            Split {
                quotient: 2 * self.quotient,
                rest: self.rest + self.rest,
                divisor: self.divisor,
            }
        } else {
            Split {
                quotient: 2 * self.quotient + 1,
                rest: self.rest - short,
                divisor: self.divisor,
            }
        }
    }

    // That of the dividend times a base: one digit more. Twice a rest may leave 64 bits, so base 2 is apart.
    fn times(self, base: u64) -> Split
        requires { (base * (self.quotient + 1) ≤ 2 ^ 31) × (2 ≤ base) × (2 < base → self.divisor * base ≤ 2 ^ 64) }
        ensures { (result.quotient * self.divisor + result.rest ≡ base * (self.quotient * self.divisor + self.rest)) × (result.divisor ≡ self.divisor)
            × (result.quotient < base * (self.quotient + 1)) }
    {
        if base == 2 {
            return self.doubled();
        }
        let product = self.rest * base;
        Split {
            quotient: self.quotient * base + product / self.divisor,
            rest: product % self.divisor,
            divisor: self.divisor,
        }
    }

    // The quotient to the nearest. A half goes up here, and in the two functions above that find a quotient without dividing.
    #[tactic(auto, unfolding(crate::specs::Nearest::nearest))]
    fn rounded(self) -> u64
        requires { 0 < self.rest → self.quotient + 1 < 2 ^ 64 }
        ensures { result ≡ nearest (self.quotient * self.divisor + self.rest) self.divisor }
    {
        if self.rest < self.divisor - self.rest {
            self.quotient
        } else {
            self.quotient + 1
        }
    }
}

// In which base the thirty bits of a fraction are taken, and how many digits they are in it: one whole is the base to that power.
#[derive(Clone, Copy)]
struct Radix {
    base: u64,
    digits: u32,
}

impl Radix {
    // What rests on the denominator alone. Of thirty, fifteen and ten bits a digit has the most with which a remainder times the base stays
    // within 64 bits. Above 2^54, past every denominator of the sheet, a digit is one bit.
    fn new(d: u64) -> Radix
        ensures { (result.base ^ result.digits ≡ S) × (2 ≤ result.base) × (2 < result.base → d * result.base ≤ 2 ^ 64) × (d ≤ 2 ^ 54 → result.digits ≤ 3) }
    {
        if d <= 1 << 34 {
            Radix {
                base: 1 << 30,
                digits: 1,
            }
        } else if d <= 1 << 49 {
            Radix {
                base: 1 << 15,
                digits: 2,
            }
        } else if d <= 1 << 54 {
            Radix {
                base: 1 << 10,
                digits: 3,
            }
        } else {
            Radix {
                base: 2,
                digits: 30,
            }
        }
    }
}

// The fraction n / d in parts of one whole, to the nearest, or one part above one whole where they are more than one whole.
pub fn parts(n: u64, d: u64) -> u32
    requires { 0 < d }
    ensures { result ≡ min (parts n d) (S + 1) }
{
    let Some(mut split) = Split::below_two(n, d) else {
        return ABOVE;
    };
    let radix = Radix::new(d);
    for _ in 0..radix.digits {
        split = split.times(radix.base);
    }
    split.rounded().min(u64::from(ABOVE)) as u32
}
