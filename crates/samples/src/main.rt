// Turns 100,000 fractions into parts of one whole and prints some of the figures, and a digest of all. Denominators of five kinds meet
// numerators of four, each pair 5,000 times. What is printed was stored before the routine was made lighter (document 02, 4).
#![tactic(auto)]

ghost use Rattle.std.specs.Prelude.{◌≡◌, ◌+◌, ◌-◌, ◌*◌, ◌^◌, ◌<◌, ◌≤◌};

use std::io;

const COUNT: u32 = 100000;

// Of so many fractions one is printed: the twenty pairs of kinds all come round.
const EVERY: u32 = 251;

// Where the drawing of numbers begins, and the digest.
const SEED: u64 = 88172645463325252;

// How many half parts one whole has.
const HALF_PARTS: u64 = 2 * rounding::WHOLE;

// Marsaglia's xorshift: it draws numbers, and stirs the digest. No two numbers have the same next one.
fn next(x: u64) -> u64 {
    let a = x ^ (x << 13);
    let b = a ^ (a >> 7);
    b ^ (b << 17)
}

// A number of k + 1 bits.
fn sized(k: u32, x: u64) -> u64
    requires { k < 64 }
    ensures { (2 ^ k ≤ result) × (result < 2 ^ (k + 1)) }
{
    let least = 2u64.pow(k);
    least + x % least
}

// A power of two from 2 on, or what stands beside it.
fn about_a_power(k: u32, x: u64) -> u64
    requires { k < 63 }
    ensures { 0 < result }
{
    2u64.pow(k + 1) - 1 + x % 3
}

// 4 × A × dx².
fn of_a_face(area: u64, dx: u64) -> u64
    requires { (0 < area) × (area ≤ 10 ^ 6) × (0 < dx) × (dx ≤ 10 ^ 4) }
    ensures { 0 < result }
{
    4 * area * (dx * dx)
}

// The denominators of document 01's half-step numbers: of e and g, l, b, s, and of the others.
fn of_the_sheet(k: u32, x: u64) -> u64
    ensures { 0 < result }
{
    let area = 1 + x % 1000000;
    match k % 5 {
        0 => of_a_face(area, 1 + x / 1000000 % 10000),
        1 => 200000 * area,
        2 => 2000000000 * area,
        3 => 2000000000000000,
        _ => 2000000000,
    }
}

// Above 2^63: of fifty one is the last number.
fn above_the_middle(k: u32, x: u64) -> u64
    ensures { 2 ^ 63 < result }
{
    if k % 50 == 0 {
        u64::MAX
    } else {
        (1 << 63) + 1 + x % ((1 << 63) - 1)
    }
}

// The kinds of denominators, which take turns.
#[derive(Clone, Copy)]
enum Denominators {
    OfEverySize,
    AboutEveryPowerOfTwo,
    WithExactHalves,
    OfTheSheet,
    AboveTheMiddle,
}

impl Denominators {
    const ALL: [Denominators; 5] = [
        Denominators::OfEverySize,
        Denominators::AboutEveryPowerOfTwo,
        Denominators::WithExactHalves,
        Denominators::OfTheSheet,
        Denominators::AboveTheMiddle,
    ];

    fn draw(self, k: u32, x: u64) -> u64
        ensures { 0 < result }
    {
        match self {
            Denominators::OfEverySize => sized(k % 64, x),
            Denominators::AboutEveryPowerOfTwo => about_a_power(k % 63, x),
            Denominators::WithExactHalves => HALF_PARTS * sized(k % 33, x),
            Denominators::OfTheSheet => of_the_sheet(k, x),
            Denominators::AboveTheMiddle => above_the_middle(k, x),
        }
    }
}

// n, or what stands beside it.
fn beside(n: u64, x: u64) -> u64 {
    match x % 3 {
        0 => n.saturating_sub(1),
        1 => n.saturating_add(1),
        _ => n,
    }
}

// The product of a number of 31 bits and one of 33, which fits.
fn product(a: u64, b: u64) -> u64
    requires { (a < 2 ^ 31) × (b < 2 ^ 33) }
    ensures { (result ≡ a * b) × (result ≤ 2 ^ 64 - 2 ^ 33) }
{
    a * b
}

// The highest numerator whose parts are at most a whole number and a half: odd × d / 2^31, with d's lower 31 bits apart, so that no
// product leaves 64 bits.
fn at_a_half(d: u64, x: u64) -> u64 {
    let odd = 2 * (x % rounding::WHOLE) + 1;
    product(odd, d / HALF_PARTS) + product(odd, d % HALF_PARTS) / HALF_PARTS
}

// The kinds of numerators, which take turns with each kind of denominators. Those of every size have 0 and the last number among them. Above one
// whole and a half part the figure stands for more; of the last denominators that sum wraps, and is some other numerator.
#[derive(Clone, Copy)]
enum Numerators {
    OfEverySize,
    BelowTheDenominator,
    AtAHalf,
    AtOneWholeAndAHalfPart,
}

impl Numerators {
    const ALL: [Numerators; 4] = [
        Numerators::OfEverySize,
        Numerators::BelowTheDenominator,
        Numerators::AtAHalf,
        Numerators::AtOneWholeAndAHalfPart,
    ];

    fn draw(self, k: u32, d: u64, x: u64) -> u64
        requires { 0 < d }
    {
        match self {
            Numerators::OfEverySize => match k % 66 {
                0 => 0,
                65 => u64::MAX,
                size => sized(size - 1, x),
            },
            Numerators::BelowTheDenominator => x % d,
            Numerators::AtAHalf => beside(at_a_half(d, x / 3), x),
            Numerators::AtOneWholeAndAHalfPart => beside(d.wrapping_add(d / HALF_PARTS), x),
        }
    }
}

fn main(rt: HostRuntime) -> io::Result<()> {
    let mut drawn = SEED;
    let mut digest = SEED;
    for i in 0..COUNT {
        let round = i / 20;
        drawn = next(drawn);
        let d = Denominators::ALL[i as usize % 5].draw(round, drawn);
        drawn = next(drawn);
        let n = Numerators::ALL[i as usize / 5 % 4].draw(round / 64, d, drawn);
        let figure = rounding::parts(n, d);
        // a single figure that differs leads to another digest
        for number in [n, d, u64::from(figure)] {
            digest = next(digest.wrapping_add(number));
        }
        if i % EVERY == 0 {
            println!(rt; "{i} {n} {d} {figure} {digest:016x}")?;
        }
    }
    println!(rt; "{COUNT} fractions, digest {digest:016x}")
}
