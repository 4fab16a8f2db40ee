// Makes a loading of each case on standard input and prints its answer. A case is the sheet's length, the length of the list of reach records
// and the flow row's number, each as a field of a sheet, and then the sheet. Behind the answer stands the sum of each of the fourteen lists,
// which were all full of sevens, so that a refusal that wrote anything would show.
#![tactic(auto)]

ghost use Rattle.std.specs.Prelude.{◌<◌, length, IfOk};

use assembly::Loaded;
use reading::read_full;
use sheet::fields::field;
use std::io;
use terms::ColumnsMut;

// The most bytes that are read of standard input.
const MOST: usize = 65536;

// The length of the lists: longer than any river, so that the entries past it show too.
const ROOM: usize = 1100;

// The three fields in front of a case's sheet.
const HEAD: usize = 12;

fn total(list: &[u32; ROOM]) -> u64 {
    list.iter().map(|x| u64::from(*x)).sum()
}

fn one(rt: &impl Print, sheet: &[u8], row: u32, records: usize) -> io::Result<()> {
    // Fourteen variables, since the lists of one array can't be lent at once: tried, and the borrow checker has no proof of a pattern that does.
    let mut e = [7u32; ROOM];
    let mut g = [7u32; ROOM];
    let mut l = [7u32; ROOM];
    let mut a = [7u32; ROOM];
    let mut b = [7u32; ROOM];
    let mut k = [7u32; ROOM];
    let mut ks = [7u32; ROOM];
    let mut h = [7u32; ROOM];
    let mut m = [7u32; ROOM];
    let mut s = [7u32; ROOM];
    let mut cl = [7u32; ROOM];
    let mut cb = [7u32; ROOM];
    let mut kd = [7u32; ROOM];
    let mut start = [7u32; ROOM];
    let mut columns = ColumnsMut {
        e: &mut e,
        g: &mut g,
        l: &mut l,
        a: &mut a,
        b: &mut b,
        k: &mut k,
        ks: &mut ks,
        h: &mut h,
        m: &mut m,
        s: &mut s,
        cl: &mut cl,
        cb: &mut cb,
        kd: &mut kd,
        start: &mut start,
    };
    match Loaded::assemble(sheet, row, records, &mut columns) {
        Ok(v) => {
            print!(rt; "accepted {} {} {}", v.steps, v.interval, v.segments)?;
            print!(rt; " {} {} {} {}", v.rowsat, v.rows, v.gaugesat, v.gauges)?;
            println!(rt; " {} {}", v.flowrowsat, v.flowrows)?;
        }
        Err(refusal) => println!(rt; "{refusal}")?,
    }
    for list in [
        &e, &g, &l, &a, &b, &k, &ks, &h, &m, &s, &cl, &cb, &kd, &start,
    ] {
        print!(rt; " {}", total(list))?;
    }
    println!(rt)
}

// The first case of the input, and what stands behind it.
fn case<'a>(rt: &impl Print, input: &'a [u8]) -> io::Result<&'a [u8]>
    requires { 0 < length input.now }
    ensures { IfOk result (λ rest. length rest.now < length input.now) }
{
    let end = HEAD + field(input, 0) as usize;
    if let Some(sheet) = input.get(HEAD..end) {
        one(rt, sheet, field(input, 8), field(input, 4) as usize)?;
    }
    Ok(input.get(end..).unwrap_or(&[]))
}

fn main(rt: HostRuntime) -> io::Result<()> {
    let mut buffer = [0u8; MOST];
    let got = read_full(&mut rt.stdin(), &mut buffer)?;
    let mut input = &buffer[..got];
    while !input.is_empty() {
        input = case(&rt, input)?;
    }
    Ok(())
}
