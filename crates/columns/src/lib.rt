// The fourteen lists of a loading: what an accepted loading writes.
#![tactic(auto)]

ghost use Rattle.std.specs.Prelude.{◌≡◌};
ghost use Rattle.model.specs.Flow.{course_of};
ghost use Rattle.model.specs.State.{loaded_segments, write_segments};
ghost use Rattle.terms.specs.Lent.{columns_lent, SameColumns, Long};
ghost use Rattle.course.specs.Segments.{Clear, Read};

use course::descent::Descent;
use terms::ColumnsMut;

// "A loading gives each segment's half-step numbers, CL, CB, Kd and start figure in lists": the first n entries of each, with the set of
// this row's flow.
// By index: fourteen lists side by side.
pub fn fill(sheet: &[u8], row: u32, n: usize, columns: &mut ColumnsMut)
    requires { Read sheet.now n × Clear 13 n (course_of sheet.now row) × Long n (columns_lent columns.old) }
    ensures same { SameColumns columns.old columns.new }
    ensures lists { columns_lent columns.new ≡ write_segments (loaded_segments sheet.now row) (columns_lent columns.old) }
{
    let mut descent = Descent::first(sheet, row, n);
    for i in 0..n {
        let site = descent.next_site();
        let numbers = site.numbers();
        columns.e[i] = numbers.e;
        columns.g[i] = numbers.g;
        columns.l[i] = numbers.l;
        columns.a[i] = numbers.a;
        columns.b[i] = numbers.b;
        columns.k[i] = numbers.k;
        columns.ks[i] = numbers.ks;
        columns.h[i] = numbers.h;
        columns.m[i] = numbers.m;
        columns.s[i] = numbers.s;
        columns.cl[i] = site.own.cl;
        columns.cb[i] = site.own.cb;
        columns.kd[i] = site.own.kd;
        columns.start[i] = site.own.start;
    }
}
