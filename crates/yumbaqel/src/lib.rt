// The library for C: every public call of the documents, exported under its plain name, and six numbers that carry the claims, so that the library is
// not built without them. `include/yumbaqel.h` declares all of them.
//
// What a call hands out comes first: `number` is 0 or the number of the refusal, `kind` and `place` are its place, and then its values.
// An accepted call writes all of them and the first entries of its lists; a refused one writes those three numbers and nothing else.
#![tactic(auto)]

ghost use Rattle.std.specs.Prelude.{◌≡◌, map, ◌*◌, length};
ghost use Rattle.model.specs.Sheet.{dt, dx, row_starts, row_concentrations, gauge_count_at, record_field};
ghost use Rattle.model.specs.Ranges.{gauge_section, band_section, most_segments, most_steps};
ghost use Rattle.model.specs.Flow.{flow_in_force};
ghost use Rattle.model.specs.Load.{load_answer, load_columns, load_records};
ghost use Rattle.model.specs.Pool.{pool_result, PoolSearchAnswer, close_finding, closed_table, open_answer, open_columns, open_records, pool_open, open_highest};
ghost use Rattle.model.specs.Calls.{no_working, Call, call_result};
ghost use Rattle.model.specs.Search.{SearchAnswer};
ghost use Rattle.model.specs.Upstream.{upstream_answer};
ghost use Rattle.model.specs.Highest.{block_count};
ghost use Rattle.model.specs.Claim.{Demand3, LoadedLists};
ghost use Rattle.model.specs.PoolClaim.{Sharing, OpenedLists};
ghost use Rattle.model.specs.SearchClaim.{SearchTold, PoolSearchTold};
ghost use Rattle.model.specs.BandClaim.{BandsCover, OrderFree};
ghost use Rattle.model.specs.OwnRiverClaim.{OwnRiverSteps, OwnRiverOnwards, OwnRiverNear, RowsUpstream, OwnCallsExist};
ghost use Rattle.forecast_model.specs.Forecast.{forecast, pool_forecast};
ghost use Rattle.forecast_model.specs.ForecastClaim.{ForecastSays, ForecastNear, PoolForecastSays};
ghost use Rattle.terms.specs.Says.{reach_says};
ghost use Rattle.terms.specs.Lent.{set, columns, state, working, left, table_in, pool};
ghost use Rattle.sheet.specs.Rows.{row_list_test, row_list_after};
ghost use Rattle.otis.specs.Outcomes.{handed};
ghost use Rattle.forecast.specs.Says.{question, live_river, room};
ghost use Rattle.forecast.specs.Left.{SidesLeft};
ghost use Rattle.answers.specs.Answers.{found_by, Told, Handed, ReportHanded, loaded_values, SearchHanded, ForecastHanded};

use answers::{Verdict, put_forecast, put_load, put_report, put_river, put_search, put_upstream};
use forecast::{Live, Question};
use otis::River;
use pool_table::Table;
use terms::{Columns, ColumnsMut, Reach, Set, StateLists, StateListsMut, WorkingMut};

// A loading for flow `row`, 0 for the flow at the top: tests 1 to 13 with 16 and 19 among them. `loaded` is M, the print interval, the segment count,
// where the rows begin on the sheet and how many there are, and the same of the gauges and of the flow rows.
#[unsafe(no_mangle)]
pub extern "C" fn yumbaqel_load(
    number: &mut u32,
    kind: &mut u32,
    place: &mut u32,
    loaded: &mut [u32; 9],
    sheet: &[u8],
    row: u32,
    reaches: &mut [Reach],
    e: &mut [u32],
    g: &mut [u32],
    l: &mut [u32],
    a: &mut [u32],
    b: &mut [u32],
    k: &mut [u32],
    ks: &mut [u32],
    h: &mut [u32],
    m: &mut [u32],
    s: &mut [u32],
    cl: &mut [u32],
    cb: &mut [u32],
    kd: &mut [u32],
    start: &mut [u32],
)
    ensures answer { Told (found_by (load_answer sheet.now row (length reaches.old)
        (columns e.old g.old l.old a.old b.old k.old ks.old h.old m.old s.old cl.old cb.old kd.old start.old))) number.new kind.new place.new }
    ensures values { loaded.new ≡ handed (load_answer sheet.now row (length reaches.old)
        (columns e.old g.old l.old a.old b.old k.old ks.old h.old m.old s.old cl.old cb.old kd.old start.old)) loaded_values loaded.old }
    ensures lists { columns e.new g.new l.new a.new b.new k.new ks.new h.new m.new s.new cl.new cb.new kd.new start.new ≡ load_columns sheet.now row (length reaches.old)
        (columns e.old g.old l.old a.old b.old k.old ks.old h.old m.old s.old cl.old cb.old kd.old start.old) }
    ensures records { map reach_says reaches.new ≡ load_records sheet.now row (map reach_says reaches.old)
        (columns e.old g.old l.old a.old b.old k.old ks.old h.old m.old s.old cl.old cb.old kd.old start.old) }
{
    let mut columns = ColumnsMut {
        e,
        g,
        l,
        a,
        b,
        k,
        ks,
        h,
        m,
        s,
        cl,
        cb,
        kd,
        start,
    };
    let answer = loading::load(sheet, row, reaches, &mut columns);
    put_load(
        answer,
        Verdict {
            number,
            kind,
            place,
        },
        loaded,
    );
}

// An opening of river `river`, 1 to 8, in a pool: tests 1 to 12 with 16 and 19 among them, 17, 18 of the table, 13 and 14 of `u`, which is U at step 0. `loaded` is a loading's.
#[unsafe(no_mangle)]
pub extern "C" fn yumbaqel_pool_open(
    number: &mut u32,
    kind: &mut u32,
    place: &mut u32,
    loaded: &mut [u32; 9],
    river: u32,
    sheet: &[u8],
    row: u32,
    reaches: &mut [Reach],
    e: &mut [u32],
    g: &mut [u32],
    l: &mut [u32],
    a: &mut [u32],
    b: &mut [u32],
    k: &mut [u32],
    ks: &mut [u32],
    h: &mut [u32],
    m: &mut [u32],
    s: &mut [u32],
    cl: &mut [u32],
    cb: &mut [u32],
    kd: &mut [u32],
    start: &mut [u32],
    channel: &mut [u32],
    storage: &mut [u32],
    sediment: &mut [u32],
    highest: &mut [u32],
    table: &mut Table,
    u: u32,
)
    ensures answer { Told (found_by (open_answer sheet.now row (length reaches.old)
        (columns e.old g.old l.old a.old b.old k.old ks.old h.old m.old s.old cl.old cb.old kd.old start.old) (pool channel.old storage.old sediment.old table.old) river highest.old u)) number.new kind.new place.new }
    ensures values { loaded.new ≡ handed (open_answer sheet.now row (length reaches.old)
        (columns e.old g.old l.old a.old b.old k.old ks.old h.old m.old s.old cl.old cb.old kd.old start.old) (pool channel.old storage.old sediment.old table.old) river highest.old u) loaded_values loaded.old }
    ensures lists { columns e.new g.new l.new a.new b.new k.new ks.new h.new m.new s.new cl.new cb.new kd.new start.new ≡ open_columns sheet.now row (length reaches.old)
        (columns e.old g.old l.old a.old b.old k.old ks.old h.old m.old s.old cl.old cb.old kd.old start.old) (pool channel.old storage.old sediment.old table.old) river highest.old u }
    ensures pool { pool channel.new storage.new sediment.new table.new ≡ pool_open sheet.now row (length reaches.old)
        (columns e.old g.old l.old a.old b.old k.old ks.old h.old m.old s.old cl.old cb.old kd.old start.old) (pool channel.old storage.old sediment.old table.old) river highest.old u }
    ensures highest { highest.new ≡ open_highest sheet.now row (length reaches.old)
        (columns e.old g.old l.old a.old b.old k.old ks.old h.old m.old s.old cl.old cb.old kd.old start.old) (pool channel.old storage.old sediment.old table.old) river highest.old u }
    ensures records { map reach_says reaches.new ≡ open_records sheet.now row (map reach_says reaches.old)
        (columns e.old g.old l.old a.old b.old k.old ks.old h.old m.old s.old cl.old cb.old kd.old start.old) (pool channel.old storage.old sediment.old table.old) river highest.old u }
{
    let mut columns = ColumnsMut {
        e,
        g,
        l,
        a,
        b,
        k,
        ks,
        h,
        m,
        s,
        cl,
        cb,
        kd,
        start,
    };
    let mut shared = StateListsMut {
        channel,
        storage,
        sediment,
    };
    let answer = opening::open(
        river,
        sheet,
        row,
        reaches,
        &mut columns,
        &mut shared,
        highest,
        table,
        u,
    );
    put_load(
        answer,
        Verdict {
            number,
            kind,
            place,
        },
        loaded,
    );
}

// A start of n segments: tests 13 and 14. `u` is U at step 0; `upstream` and `done` are the state's U and its count of steps. `highest` has the
// highest channel figure of each sixteen segments begun when the call is over.
#[unsafe(no_mangle)]
pub extern "C" fn yumbaqel_start<'a>(
    number: &mut u32,
    kind: &mut u32,
    place: &mut u32,
    n: u32,
    e: &'a [u32],
    g: &'a [u32],
    l: &'a [u32],
    a: &'a [u32],
    b: &'a [u32],
    k: &'a [u32],
    ks: &'a [u32],
    h: &'a [u32],
    m: &'a [u32],
    s: &'a [u32],
    cl: &'a [u32],
    cb: &'a [u32],
    kd: &'a [u32],
    start: &'a [u32],
    channel: &mut [u32],
    storage: &mut [u32],
    sediment: &mut [u32],
    highest: &mut [u32],
    upstream: &mut u32,
    done: &mut u32,
    u: u32,
)
    ensures { Handed (call_result n (state channel.old storage.old sediment.old upstream.old done.old)
        (Call.start (columns e.now g.now l.now a.now b.now k.now ks.now h.now m.now s.now cl.now cb.now kd.now start.now) highest.old u))
        number.new kind.new place.new (left (state channel.new storage.new sediment.new upstream.new done.new) highest.new no_working) }
{
    let numbers = Set {
        e,
        g,
        l,
        a,
        b,
        k,
        ks,
        h,
        m,
        s,
    };
    let columns = Columns {
        numbers,
        cl,
        cb,
        kd,
        start,
    };
    let state = StateListsMut {
        channel,
        storage,
        sediment,
    };
    let answer = River::start(n, columns, state, highest, u);
    put_river(
        answer,
        Verdict {
            number,
            kind,
            place,
        },
        upstream,
        done,
    );
}

// A step: tests 13 to 15. The ten lists with a 0 are the set of its old side, those behind them that of its new side; `u` is U' and `steps` is M;
// p and y are working lists, and `highest` is as in a start.
#[unsafe(no_mangle)]
pub extern "C" fn yumbaqel_step<'a>(
    number: &mut u32,
    kind: &mut u32,
    place: &mut u32,
    n: u32,
    e0: &'a [u32],
    g0: &'a [u32],
    l0: &'a [u32],
    a0: &'a [u32],
    b0: &'a [u32],
    k0: &'a [u32],
    ks0: &'a [u32],
    h0: &'a [u32],
    m0: &'a [u32],
    s0: &'a [u32],
    e: &'a [u32],
    g: &'a [u32],
    l: &'a [u32],
    a: &'a [u32],
    b: &'a [u32],
    k: &'a [u32],
    ks: &'a [u32],
    h: &'a [u32],
    m: &'a [u32],
    s: &'a [u32],
    cl: &'a [u32],
    cb: &'a [u32],
    kd: &'a [u32],
    start: &'a [u32],
    channel: &mut [u32],
    storage: &mut [u32],
    sediment: &mut [u32],
    highest: &mut [u32],
    upstream: &mut u32,
    done: &mut u32,
    p: &mut [u64],
    y: &mut [u64],
    u: u32,
    steps: u32,
)
    ensures { Handed (call_result n (state channel.old storage.old sediment.old upstream.old done.old)
        (Call.step (set e0.now g0.now l0.now a0.now b0.now k0.now ks0.now h0.now m0.now s0.now) (columns e.now g.now l.now a.now b.now k.now ks.now h.now m.now s.now cl.now cb.now kd.now start.now) highest.old (working p.old y.old) u steps))
        number.new kind.new place.new (left (state channel.new storage.new sediment.new upstream.new done.new) highest.new (working p.new y.new)) }
{
    let river = River {
        upstream: *upstream,
        steps: *done,
    };
    let old = Set {
        e: e0,
        g: g0,
        l: l0,
        a: a0,
        b: b0,
        k: k0,
        ks: ks0,
        h: h0,
        m: m0,
        s: s0,
    };
    let numbers = Set {
        e,
        g,
        l,
        a,
        b,
        k,
        ks,
        h,
        m,
        s,
    };
    let new = Columns {
        numbers,
        cl,
        cb,
        kd,
        start,
    };
    let state = StateListsMut {
        channel,
        storage,
        sediment,
    };
    let answer = river.step(n, old, new, state, highest, WorkingMut { p, y }, u, steps);
    put_river(
        answer,
        Verdict {
            number,
            kind,
            place,
        },
        upstream,
        done,
    );
}

// A report of a segment, which counts from 1: tests 13 and 14. `c`, `z` and `kdw` are C, Z and Kd × W.
#[unsafe(no_mangle)]
pub extern "C" fn yumbaqel_report<'a>(
    number: &mut u32,
    kind: &mut u32,
    place: &mut u32,
    c: &mut u32,
    z: &mut u32,
    kdw: &mut u64,
    n: u32,
    e: &'a [u32],
    g: &'a [u32],
    l: &'a [u32],
    a: &'a [u32],
    b: &'a [u32],
    k: &'a [u32],
    ks: &'a [u32],
    h: &'a [u32],
    m: &'a [u32],
    s: &'a [u32],
    cl: &'a [u32],
    cb: &'a [u32],
    kd: &'a [u32],
    start: &'a [u32],
    channel: &[u32],
    storage: &[u32],
    sediment: &[u32],
    upstream: u32,
    done: u32,
    segment: u32,
)
    ensures { ReportHanded (call_result n (state channel.now storage.now sediment.now upstream done) (Call.report (columns e.now g.now l.now a.now b.now k.now ks.now h.now m.now s.now cl.now cb.now kd.now start.now) segment)).answer
        number.new kind.new place.new c.old z.old kdw.old c.new z.new kdw.new }
{
    let river = River {
        upstream,
        steps: done,
    };
    let numbers = Set {
        e,
        g,
        l,
        a,
        b,
        k,
        ks,
        h,
        m,
        s,
    };
    let columns = Columns {
        numbers,
        cl,
        cb,
        kd,
        start,
    };
    let state = StateLists {
        channel,
        storage,
        sediment,
    };
    let answer = river.report(n, columns, state, segment);
    put_report(
        answer,
        Verdict {
            number,
            kind,
            place,
        },
        c,
        z,
        kdw,
    );
}

// Is any of the river above the limit? 13 alone. `segment` is 0 for none, else the number of a segment that is; which one is left open.
#[unsafe(no_mangle)]
pub extern "C" fn yumbaqel_search(
    number: &mut u32,
    kind: &mut u32,
    place: &mut u32,
    segment: &mut u32,
    n: u32,
    channel: &[u32],
    highest: &[u32],
    limit: u32,
)
    ensures { SearchHanded (SearchAnswer n channel.now highest.now limit) number.new kind.new place.new segment.old segment.new }
{
    let answer = search::alone(n, channel, highest, limit);
    put_search(
        answer,
        Verdict {
            number,
            kind,
            place,
        },
        segment,
    );
}

// A forecast of n segments: the sheet's tests, 13, 14 and 20. `upstream` and `done` are the live state's U and count; what ends in 1 is the copies', `sides`
// the list of both sides of a step, p and y working lists. `above` is 1 where the gauge is above the limit at step `done1`, the first such one, else 0.
#[unsafe(no_mangle)]
pub extern "C" fn yumbaqel_forecast(
    number: &mut u32,
    kind: &mut u32,
    place: &mut u32,
    above: &mut u32,
    n: u32,
    sheet: &[u8],
    channel: &[u32],
    storage: &[u32],
    sediment: &[u32],
    highest: &[u32],
    upstream: u32,
    done: u32,
    channel1: &mut [u32],
    storage1: &mut [u32],
    sediment1: &mut [u32],
    highest1: &mut [u32],
    upstream1: &mut u32,
    done1: &mut u32,
    sides: &mut [u32],
    p: &mut [u64],
    y: &mut [u64],
    gauge: u32,
    limit: u32,
    horizon: u32,
)
    ensures result { ForecastHanded (forecast sheet.now (live_river n (state channel.now storage.now sediment.now upstream done) highest.now)
        (room (state channel1.old storage1.old sediment1.old upstream1.old done1.old) highest1.old sides.old (working p.old y.old)) (question gauge limit horizon))
        number.new kind.new place.new above.old above.new (left (state channel1.new storage1.new sediment1.new upstream1.new done1.new) highest1.new (working p.new y.new)) }
    ensures sides { SidesLeft (forecast sheet.now (live_river n (state channel.now storage.now sediment.now upstream done) highest.now)
        (room (state channel1.old storage1.old sediment1.old upstream1.old done1.old) highest1.old sides.old (working p.old y.old)) (question gauge limit horizon)).answer
        sheet.now sides.old sides.new }
{
    let river = River {
        upstream,
        steps: done,
    };
    let state = StateLists {
        channel,
        storage,
        sediment,
    };
    let live = Live {
        n,
        river,
        state,
        highest,
    };
    let mut copies = StateListsMut {
        channel: channel1,
        storage: storage1,
        sediment: sediment1,
    };
    let mut working = WorkingMut { p, y };
    let asked = Question {
        gauge,
        limit,
        horizon,
    };
    let answer = forecast::alone(
        sheet,
        live,
        &mut copies,
        highest1,
        sides,
        &mut working,
        asked,
    );
    put_forecast(
        answer,
        Verdict {
            number,
            kind,
            place,
        },
        above,
        upstream1,
        done1,
    );
}

// A start of the river that is open under this number: tests 18, 13 and 14. U and the count of steps done stand in its slot of the table.
#[unsafe(no_mangle)]
pub extern "C" fn yumbaqel_pool_start<'a>(
    number: &mut u32,
    kind: &mut u32,
    place: &mut u32,
    river: u32,
    e: &'a [u32],
    g: &'a [u32],
    l: &'a [u32],
    a: &'a [u32],
    b: &'a [u32],
    k: &'a [u32],
    ks: &'a [u32],
    h: &'a [u32],
    m: &'a [u32],
    s: &'a [u32],
    cl: &'a [u32],
    cb: &'a [u32],
    kd: &'a [u32],
    start: &'a [u32],
    channel: &mut [u32],
    storage: &mut [u32],
    sediment: &mut [u32],
    highest: &mut [u32],
    table: &mut Table,
    u: u32,
)
    ensures { Handed (pool_result (pool channel.old storage.old sediment.old table.old) river (Call.start (columns e.now g.now l.now a.now b.now k.now ks.now h.now m.now s.now cl.now cb.now kd.now start.now) highest.old u))
        number.new kind.new place.new (left (pool channel.new storage.new sediment.new table.new) highest.new no_working) }
{
    let numbers = Set {
        e,
        g,
        l,
        a,
        b,
        k,
        ks,
        h,
        m,
        s,
    };
    let columns = Columns {
        numbers,
        cl,
        cb,
        kd,
        start,
    };
    let shared = StateListsMut {
        channel,
        storage,
        sediment,
    };
    let answer = pool::start(river, columns, shared, highest, table, u);
    Verdict {
        number,
        kind,
        place,
    }
    .tell(answer);
}

// A step of it: tests 18, 13, 14 and 15. The sets, `u`, `steps`, p and y are as in `yumbaqel_step`.
#[unsafe(no_mangle)]
pub extern "C" fn yumbaqel_pool_step<'a>(
    number: &mut u32,
    kind: &mut u32,
    place: &mut u32,
    river: u32,
    e0: &'a [u32],
    g0: &'a [u32],
    l0: &'a [u32],
    a0: &'a [u32],
    b0: &'a [u32],
    k0: &'a [u32],
    ks0: &'a [u32],
    h0: &'a [u32],
    m0: &'a [u32],
    s0: &'a [u32],
    e: &'a [u32],
    g: &'a [u32],
    l: &'a [u32],
    a: &'a [u32],
    b: &'a [u32],
    k: &'a [u32],
    ks: &'a [u32],
    h: &'a [u32],
    m: &'a [u32],
    s: &'a [u32],
    cl: &'a [u32],
    cb: &'a [u32],
    kd: &'a [u32],
    start: &'a [u32],
    channel: &mut [u32],
    storage: &mut [u32],
    sediment: &mut [u32],
    highest: &mut [u32],
    table: &mut Table,
    p: &mut [u64],
    y: &mut [u64],
    u: u32,
    steps: u32,
)
    ensures { Handed (pool_result (pool channel.old storage.old sediment.old table.old) river
        (Call.step (set e0.now g0.now l0.now a0.now b0.now k0.now ks0.now h0.now m0.now s0.now) (columns e.now g.now l.now a.now b.now k.now ks.now h.now m.now s.now cl.now cb.now kd.now start.now) highest.old (working p.old y.old) u steps))
        number.new kind.new place.new (left (pool channel.new storage.new sediment.new table.new) highest.new (working p.new y.new)) }
{
    let old = Set {
        e: e0,
        g: g0,
        l: l0,
        a: a0,
        b: b0,
        k: k0,
        ks: ks0,
        h: h0,
        m: m0,
        s: s0,
    };
    let numbers = Set {
        e,
        g,
        l,
        a,
        b,
        k,
        ks,
        h,
        m,
        s,
    };
    let new = Columns {
        numbers,
        cl,
        cb,
        kd,
        start,
    };
    let shared = StateListsMut {
        channel,
        storage,
        sediment,
    };
    let answer = pool::step(
        river,
        old,
        new,
        shared,
        highest,
        table,
        WorkingMut { p, y },
        u,
        steps,
    );
    Verdict {
        number,
        kind,
        place,
    }
    .tell(answer);
}

// A report of a segment of it, which counts from 1: tests 18, 13 and 14. `c`, `z` and `kdw` are C, Z and Kd × W.
#[unsafe(no_mangle)]
pub extern "C" fn yumbaqel_pool_report<'a>(
    number: &mut u32,
    kind: &mut u32,
    place: &mut u32,
    c: &mut u32,
    z: &mut u32,
    kdw: &mut u64,
    river: u32,
    e: &'a [u32],
    g: &'a [u32],
    l: &'a [u32],
    a: &'a [u32],
    b: &'a [u32],
    k: &'a [u32],
    ks: &'a [u32],
    h: &'a [u32],
    m: &'a [u32],
    s: &'a [u32],
    cl: &'a [u32],
    cb: &'a [u32],
    kd: &'a [u32],
    start: &'a [u32],
    channel: &[u32],
    storage: &[u32],
    sediment: &[u32],
    table: &Table,
    segment: u32,
)
    ensures { ReportHanded (pool_result (pool channel.now storage.now sediment.now table.now) river (Call.report (columns e.now g.now l.now a.now b.now k.now ks.now h.now m.now s.now cl.now cb.now kd.now start.now) segment)).answer
        number.new kind.new place.new c.old z.old kdw.old c.new z.new kdw.new }
{
    let numbers = Set {
        e,
        g,
        l,
        a,
        b,
        k,
        ks,
        h,
        m,
        s,
    };
    let columns = Columns {
        numbers,
        cl,
        cb,
        kd,
        start,
    };
    let shared = StateLists {
        channel,
        storage,
        sediment,
    };
    let answer = pool::report(river, columns, shared, table, segment);
    put_report(
        answer,
        Verdict {
            number,
            kind,
            place,
        },
        c,
        z,
        kdw,
    );
}

// The search of it: 18 and 13. The channel list is the one shared list that it is lent, `highest` the river's own.
#[unsafe(no_mangle)]
pub extern "C" fn yumbaqel_pool_search(
    number: &mut u32,
    kind: &mut u32,
    place: &mut u32,
    segment: &mut u32,
    river: u32,
    channel: &[u32],
    highest: &[u32],
    table: &Table,
    limit: u32,
)
    ensures { SearchHanded (PoolSearchAnswer (table_in table.now) channel.now river highest.now limit) number.new kind.new place.new
        segment.old segment.new }
{
    let answer = search::on_pool(river, channel, highest, table, limit);
    put_search(
        answer,
        Verdict {
            number,
            kind,
            place,
        },
        segment,
    );
}

// A forecast of the river that is open under this number: the sheet's tests, 18, 13, 14 and 20. The pool does not move.
#[unsafe(no_mangle)]
pub extern "C" fn yumbaqel_pool_forecast(
    number: &mut u32,
    kind: &mut u32,
    place: &mut u32,
    above: &mut u32,
    river: u32,
    sheet: &[u8],
    channel: &[u32],
    storage: &[u32],
    sediment: &[u32],
    highest: &[u32],
    table: &Table,
    channel1: &mut [u32],
    storage1: &mut [u32],
    sediment1: &mut [u32],
    highest1: &mut [u32],
    upstream1: &mut u32,
    done1: &mut u32,
    sides: &mut [u32],
    p: &mut [u64],
    y: &mut [u64],
    gauge: u32,
    limit: u32,
    horizon: u32,
)
    ensures result { ForecastHanded (pool_forecast sheet.now (pool channel.now storage.now sediment.now table.now) river highest.now
        (room (state channel1.old storage1.old sediment1.old upstream1.old done1.old) highest1.old sides.old (working p.old y.old)) (question gauge limit horizon))
        number.new kind.new place.new above.old above.new (left (state channel1.new storage1.new sediment1.new upstream1.new done1.new) highest1.new (working p.new y.new)) }
    ensures sides { SidesLeft (pool_forecast sheet.now (pool channel.now storage.now sediment.now table.now) river highest.now
        (room (state channel1.old storage1.old sediment1.old upstream1.old done1.old) highest1.old sides.old (working p.old y.old)) (question gauge limit horizon)).answer
        sheet.now sides.old sides.new }
{
    let shared = StateLists {
        channel,
        storage,
        sediment,
    };
    let mut copies = StateListsMut {
        channel: channel1,
        storage: storage1,
        sediment: sediment1,
    };
    let mut working = WorkingMut { p, y };
    let asked = Question {
        gauge,
        limit,
        horizon,
    };
    let answer = forecast::on_pool(
        river,
        sheet,
        shared,
        highest,
        table,
        &mut copies,
        highest1,
        sides,
        &mut working,
        asked,
    );
    put_forecast(
        answer,
        Verdict {
            number,
            kind,
            place,
        },
        above,
        upstream1,
        done1,
    );
}

// A closing of it: test 18 alone. Its slot is free again, and so are its segments.
#[unsafe(no_mangle)]
pub extern "C" fn yumbaqel_pool_close(
    number: &mut u32,
    kind: &mut u32,
    place: &mut u32,
    river: u32,
    table: &mut Table,
)
    ensures answer { Told (close_finding (table_in table.old) river) number.new kind.new place.new }
    ensures table { table_in table.new ≡ closed_table (table_in table.old) river }
{
    Verdict {
        number,
        kind,
        place,
    }
    .tell(pool::close(river, table));
}

// U at step j of the rows, for M steps: tests 3 and 8.
#[unsafe(no_mangle)]
pub extern "C" fn yumbaqel_upstream(
    number: &mut u32,
    kind: &mut u32,
    place: &mut u32,
    u: &mut u32,
    starts: &[u32],
    concentrations: &[u32],
    steps: u32,
    j: u32,
)
    ensures answer { Told (found_by (upstream_answer steps j starts.now concentrations.now)) number.new kind.new place.new }
    ensures u { u.new ≡ handed (upstream_answer steps j starts.now concentrations.now) (λ v. v) u.old }
{
    let answer = boundary::rows::upstream(starts, concentrations, steps, j);
    put_upstream(
        answer,
        Verdict {
            number,
            kind,
            place,
        },
        u,
    );
}

// The boundary rows of a sheet in the two lists that U is looked up in: test 13 of the lists.
#[unsafe(no_mangle)]
pub extern "C" fn yumbaqel_rows(
    number: &mut u32,
    kind: &mut u32,
    place: &mut u32,
    sheet: &[u8],
    starts: &mut [u32],
    concentrations: &mut [u32],
)
    ensures answer { Told (row_list_test sheet.now starts.old concentrations.old) number.new kind.new place.new }
    ensures starts { starts.new ≡ row_list_after (row_list_test sheet.now starts.old concentrations.old)
        (row_starts sheet.now) starts.old }
    ensures concentrations { concentrations.new ≡ row_list_after (row_list_test sheet.now starts.old concentrations.old)
        (row_concentrations sheet.now) concentrations.old }
{
    Verdict {
        number,
        kind,
        place,
    }
    .tell(sheet::rows::copy_rows(sheet, starts, concentrations));
}

// Gauge j of a sheet, a segment's number; j counts from 0. Bytes past the sheet's end count as 0.
#[unsafe(no_mangle)]
pub extern "C" fn yumbaqel_gauge(sheet: &[u8], j: usize) -> u32
    ensures { result ≡ record_field sheet.now (gauge_count_at sheet.now) gauge_section j 0 }
{
    sheet::fields::gauge(sheet, j)
}

// The number of the flow in force at step j of a sheet: 0 for the flow at the top, else the flow row. Of a sheet that no loading accepts it is that of
// the rows that its count names; bytes past the sheet's end count as 0.
#[unsafe(no_mangle)]
pub extern "C" fn yumbaqel_flow(sheet: &[u8], j: u32) -> u32
    ensures { result ≡ flow_in_force sheet.now j }
{
    sheet::fields::flow_in_force(sheet, j)
}

// dt of a sheet, in seconds. Bytes past the sheet's end count as 0.
#[unsafe(no_mangle)]
pub extern "C" fn yumbaqel_dt(sheet: &[u8]) -> u32
    ensures { result ≡ dt sheet.now }
{
    sheet::fields::dt(sheet)
}

// dx of a sheet, in cm. Bytes past the sheet's end count as 0.
#[unsafe(no_mangle)]
pub extern "C" fn yumbaqel_dx(sheet: &[u8]) -> u32
    ensures { result ≡ dx sheet.now }
{
    sheet::fields::dx(sheet)
}

// How far a figure may be off the exact river after `steps` accepted steps since the latest accepted start: in ng/L for channel and storage, and times
// Kd, in pg/g, for sediment. With it goes the claim that none is further off.
#[unsafe(no_mangle)]
pub extern "C" fn yumbaqel_most_off(steps: u32) -> u64
    ensures value { result ≡ 6 * steps }
    ensures demand3 { Demand3 }
    ensures loaded_lists { LoadedLists }
{
    distance_claim::most_off(steps)
}

// The most rivers that a pool has open, with the claim that each shows the figures of its own calls, and that an opening leaves what they are to be lent.
#[unsafe(no_mangle)]
pub extern "C" fn yumbaqel_most_rivers() -> u32
    ensures value { result ≡ 8 }
    ensures sharing { Sharing }
    ensures opened_lists { OpenedLists }
{
    pool_claim::most_rivers()
}

// The highest figures of the longest river, one for each sixteen segments, with the claim that a search of lists as they were left tells whether a
// segment is above, of a river alone and on a pool.
#[unsafe(no_mangle)]
pub extern "C" fn yumbaqel_most_blocks() -> u32
    ensures value { result ≡ block_count most_segments }
    ensures search_told { SearchTold }
    ensures pool_search_told { PoolSearchTold }
{
    search_claim::most_blocks()
}

// The most bands of a reach, with the claims that test 19 passes exactly the bands that cover every flow once, and that their order moves no
// number.
#[unsafe(no_mangle)]
pub extern "C" fn yumbaqel_most_bands() -> u32
    ensures value { result ≡ band_section.counts.high }
    ensures bands_cover { BandsCover }
    ensures order_free { OrderFree }
{
    bands_claim::most_bands()
}

// The most steps of a sheet, with the claims that after an accepted loading and start no step of the sheet's own river is refused up to its M, that the
// steps leave what the definitions say, and that demand 3 holds of them.
#[unsafe(no_mangle)]
pub extern "C" fn yumbaqel_most_steps() -> u32
    ensures value { result ≡ most_steps }
    ensures own_river_steps { OwnRiverSteps }
    ensures own_river_onwards { OwnRiverOnwards }
    ensures own_river_near { OwnRiverNear }
    ensures rows_upstream { RowsUpstream }
    ensures own_calls_exist { OwnCallsExist }
{
    own_river_claim::most_steps()
}

// The longest horizon, with the claims that a forecast says what as many step calls and reports would have said, alone and on a pool, and that demand 3 holds of
// its copies.
#[unsafe(no_mangle)]
pub extern "C" fn yumbaqel_most_horizon() -> u32
    ensures value { result ≡ most_steps }
    ensures forecast_says { ForecastSays }
    ensures forecast_near { ForecastNear }
    ensures pool_forecast_says { PoolForecastSays }
{
    forecast_claim::most_horizon()
}

// The version of this interface, 3.3.0: the first number times 10,000, the second times 100 and the third.
#[unsafe(no_mangle)]
pub extern "C" fn yumbaqel_version() -> u32
    ensures { result ≡ 30300 }
{
    30300
}
