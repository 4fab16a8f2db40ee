// Both sides of a step in one list, as C lends them: twenty-four parts of one length, the ten lists of the old set, the ten of the new one, CL,
// CB, Kd and the start figures.
ghost use Rattle.std.specs.Prelude.{◌≡◌, ◌<◌, ◌≤◌};
ghost use Rattle.terms.specs.Lent.{set_of, columns, columns_of, Long};
ghost use Rattle.model.specs.Sheet.{flow_row_count};
ghost use Rattle.model.specs.Flow.{course_of};
ghost use Rattle.model.specs.State.{loaded_segments, write_segments};
ghost use Rattle.course.specs.Segments.{Clear, Read};
ghost use Rattle.own_river.specs.Ready.{OfSheet};
ghost use Rattle.own_river.specs.Sides.{parts, width, part_of, sides_of, filled, kept, SidesAre};

use terms::{Columns, ColumnsMut, Set};

// The parts of the list.
pub const PARTS: usize = 24;

// The lists of a set.
const LISTS: usize = 10;

// The part with this number.
fn part(sides: &[u32], k: usize) -> &[u32]
    requires { k < parts }
    ensures { result.now ≡ part_of sides.now k }
{
    let width = sides.len() / PARTS;
    &sides[k * width..][..width]
}

// A loading's fourteen lists, lent one by one: once parts of one list stand in a struct, a proof knows the list's length alone (tried).
fn load(
    sheet: &[u8],
    row: u32,
    n: usize,
    e: &mut [u32],
    g: &mut [u32],
    l: &mut [u32],
    a: &mut [u32],
    b: &mut [u32],
    k: &mut [u32],
    ks: &mut [u32],
    h: &mut [u32],
    m: &mut [u32],
    s: &mut [u32],
    cl: &mut [u32],
    cb: &mut [u32],
    kd: &mut [u32],
    start: &mut [u32],
)
    requires { Read sheet.now n × Clear 13 n (course_of sheet.now row)
        × Long n (columns e.old g.old l.old a.old b.old k.old ks.old h.old m.old s.old cl.old cb.old kd.old start.old) }
    ensures { columns e.new g.new l.new a.new b.new k.new ks.new h.new m.new s.new cl.new cb.new kd.new start.new
        ≡ write_segments (loaded_segments sheet.now row)
        (columns e.old g.old l.old a.old b.old k.old ks.old h.old m.old s.old cl.old cb.old kd.old start.old) }
{
    let mut lists = ColumnsMut {
        e,
        g,
        l,
        a,
        b,
        k,
        ks,
        h,
        m,
        s,
        cl,
        cb,
        kd,
        start,
    };
    columns::fill(sheet, row, n, &mut lists);
}

// The new side of n segments off the sheet: this flow's set, and the lists that every flow shares.
pub fn fill(sheet: &[u8], row: u32, n: usize, sides: &mut [u32])
    requires { OfSheet sheet.now n × (row ≤ flow_row_count sheet.now) × (n ≤ width sides.old) }
    ensures { SidesAre (filled sheet.now row (sides_of sides.old)) sides.old sides.new }
{
    let width = sides.len() / PARTS;
    let (_, new) = sides.split_at_mut(LISTS * width);
    let (e, rest) = new.split_at_mut(width);
    let (g, rest) = rest.split_at_mut(width);
    let (l, rest) = rest.split_at_mut(width);
    let (a, rest) = rest.split_at_mut(width);
    let (b, rest) = rest.split_at_mut(width);
    let (k, rest) = rest.split_at_mut(width);
    let (ks, rest) = rest.split_at_mut(width);
    let (h, rest) = rest.split_at_mut(width);
    let (m, rest) = rest.split_at_mut(width);
    let (s, rest) = rest.split_at_mut(width);
    let (cl, rest) = rest.split_at_mut(width);
    let (cb, rest) = rest.split_at_mut(width);
    let (kd, rest) = rest.split_at_mut(width);
    let (start, _) = rest.split_at_mut(width);
    load(
        sheet, row, n, e, g, l, a, b, k, ks, h, m, s, cl, cb, kd, start,
    );
}

// The new side's set over the old side's.
pub fn keep(sides: &mut [u32])
    ensures { SidesAre (kept (sides_of sides.old)) sides.old sides.new }
{
    let set = LISTS * (sides.len() / PARTS);
    sides.copy_within(set..2 * set, 0);
}

// The set of the old side.
#[tactic(auto, unfolding(crate::specs::Sides::sides_of))]
pub fn old(sides: &[u32]) -> Set
    ensures { set_of result ≡ (sides_of sides.now).old }
{
    Set {
        e: part(sides, 0),
        g: part(sides, 1),
        l: part(sides, 2),
        a: part(sides, 3),
        b: part(sides, 4),
        k: part(sides, 5),
        ks: part(sides, 6),
        h: part(sides, 7),
        m: part(sides, 8),
        s: part(sides, 9),
    }
}

// The fourteen lists of the new side.
#[tactic(auto, unfolding(crate::specs::Sides::sides_of))]
pub fn new(sides: &[u32]) -> Columns
    ensures { columns_of result ≡ (sides_of sides.now).new }
{
    Columns {
        numbers: Set {
            e: part(sides, 10),
            g: part(sides, 11),
            l: part(sides, 12),
            a: part(sides, 13),
            b: part(sides, 14),
            k: part(sides, 15),
            ks: part(sides, 16),
            h: part(sides, 17),
            m: part(sides, 18),
            s: part(sides, 19),
        },
        cl: part(sides, 20),
        cb: part(sides, 21),
        kd: kd(sides),
        start: starts(sides),
    }
}

// Kd among them.
#[tactic(auto, unfolding(crate::specs::Sides::sides_of))]
pub fn kd(sides: &[u32]) -> &[u32]
    ensures { result.now ≡ (sides_of sides.now).new.kd }
{
    part(sides, 22)
}

// And the start figures.
#[tactic(auto, unfolding(crate::specs::Sides::sides_of))]
pub fn starts(sides: &[u32]) -> &[u32]
    ensures { result.now ≡ (sides_of sides.now).new.start }
{
    part(sides, 23)
}
