// A descent of the river from the top, segment by segment, with one of the sheet's flows: a reach is read off the sheet where it begins, and
// the band of a segment is looked for once. The reach and the place of its bands are carried beside the cursor, so that they move only where
// another reach begins.
ghost use Rattle.std.specs.Prelude.{◌≡◌, ◌+◌, ◌<◌};
ghost use Rattle.model.specs.Sheet.{reach_count};
ghost use Rattle.model.specs.Flow as Document;
ghost use Rattle.model.specs.HalfStep.{ad};
ghost use Rattle.terms.specs.Says.{reach_says, hydraulics_say};
ghost use Rattle.sheet.specs.Walks.{Walked};
ghost use Rattle.bands.specs.Bands.{Standing};
ghost use Rattle.course.specs.Segments.{Read, IsSegment};
ghost use Rattle.course.specs.Descent.{course_from, Arrives, Arrived, At, reach_below, number_below, Lower, Below};
ghost use Rattle.course.specs.Walk.{Descends, StandsAt};

use bands::Bands;
use halfstep::{Site, discharge, flow, gain_below};
use sheet::fields::{dt, dx, reach, top_of};
use terms::{Hydraulics, Reach};

// A segment of the river.
#[derive(Clone, Copy)]
pub struct Cursor {
    // The number of its reach, from 0 in the sheet's order, and how many of that reach's segments lie before it.
    pub number: u32,
    pub passed: u32,
    // The sum of (qin − qout) × dx over the segments before it.
    pub gain: i64,
    // Its flow, and its A, D and AS at that flow.
    pub flow: i64,
    pub hydraulics: Hydraulics,
}

// The sheet with one of its flows at the top.
#[derive(Clone, Copy)]
pub struct Course<'a> {
    pub sheet: &'a [u8],
    pub dt: u32,
    pub dx: u32,
    pub top: u32,
}

// A descent of n segments, which has come to segment i: its reach with that reach's bands, what is worked out there, and the AD above.
// It is no Iterator, whose `next` could ask nothing: each descent would have to carry the proof that it stands in the river.
#[derive(Clone, Copy)]
pub struct Descent<'a> {
    pub course: Course<'a>,
    pub n: usize,
    pub i: usize,
    pub own: Reach,
    pub bands: Bands,
    pub here: Cursor,
    pub above: u64,
}

impl<'a> Course<'a> {
    // The segment with this place, reach and gain, its flow and its A, D and AS.
    fn arrive(self, number: u32, passed: u32, own: Reach, bands: Bands, gain: i64) -> Cursor
        requires { Arrives self.dx own gain }
        ensures { Arrived self.entry.sheet.now self.entry.top self.entry.dx number passed own bands gain result }
    {
        let flow = flow(self.top, gain, own, self.dx);
        Cursor {
            number,
            passed,
            gain,
            flow,
            hydraulics: bands.hydraulics_at(self.sheet, own, discharge(flow)),
        }
    }
}

impl Cursor {
    // The reach of the segment below, where this one's is `own`.
    fn reach_below(self, sheet: &[u8], own: Reach) -> Reach
        requires { self.passed < own.segments }
        ensures { reach_says result ≡ reach_below sheet.now own self }
    {
        if self.passed + 1 < own.segments {
            return own;
        }
        reach(sheet, self.number as usize + 1)
    }

    // Its bands.
    fn bands_below(self, sheet: &[u8], own: Reach, table: Bands) -> Bands
        requires { Walked sheet.now × (self.passed < own.segments) × Standing sheet.now self.number table
            × (self.number < reach_count sheet.now) }
        ensures { Standing sheet.now (number_below own self) result }
    {
        if self.passed + 1 < own.segments {
            return table;
        }
        table.below(sheet, self.number)
    }

    // The segment's AD.
    fn ad(self) -> u64
        ensures { result ≡ ad (hydraulics_say self.hydraulics) }
    {
        let x = self.hydraulics;
        halfstep::ad(x)
    }
}

impl<'a> Descent<'a> {
    // At the first of n segments, with the flow of this row.
    pub fn first(sheet: &'a [u8], row: u32, n: usize) -> Descent<'a>
        requires { Read sheet.now n }
        ensures { StandsAt sheet.now (Document.top_of sheet.now row) n 0 result }
    {
        let course = Course {
            sheet,
            dt: dt(sheet),
            dx: dx(sheet),
            top: top_of(sheet, row),
        };
        let own = reach(sheet, 0);
        let bands = Bands::first(sheet);
        let here = course.arrive(0, 0, own, bands, 0);
        Descent {
            course,
            n,
            i: 0,
            own,
            bands,
            here,
            above: here.ad(),
        }
    }

    // The segment below, with its reach and its bands; of the last segment itself.
    fn below(&self, lower: Reach, bands: Bands) -> Cursor
        requires { Lower self.now.course.sheet.now self.now.course.top self.now.course.dx self.now.n self.now.i self.now.own lower bands self.now.here }
        ensures { Below self.now.course.sheet.now self.now.course.top self.now.n self.now.i lower bands result }
    {
        let here = self.here;
        if self.i + 1 == self.n {
            return here;
        }
        let gain = gain_below(here.gain, self.own, self.course.dx);
        if here.passed + 1 < self.own.segments {
            return self
                .course
                .arrive(here.number, here.passed + 1, lower, bands, gain);
        }
        self.course.arrive(here.number + 1, 0, lower, bands, gain)
    }

    // What the segment's half-step numbers are worked out from; the descent goes on to the segment below. As a call it took a loading 8 % more
    // instructions, since the descent then lies in memory.
    #[inline(always)]
    pub fn next_site(&mut self) -> Site
        requires { Descends self.old × (self.old.i < self.old.n) }
        ensures segment { IsSegment (course_from self.old.course.sheet.now self.old.course.top) self.old.i result }
        ensures below { StandsAt self.old.course.sheet.now self.old.course.top self.old.n (self.old.i + 1) self.new }
    {
        let here = self.here;
        let lower = here.reach_below(self.course.sheet, self.own);
        let bands = here.bands_below(self.course.sheet, self.own, self.bands);
        let below = self.below(lower, bands);
        let site = Site {
            own: self.own,
            hydraulics: here.hydraulics,
            above: self.above,
            below: below.ad(),
            flow: here.flow,
            last: self.i + 1 == self.n,
            dt: self.course.dt,
            dx: self.course.dx,
        };
        self.i += 1;
        self.own = lower;
        self.bands = bands;
        self.here = below;
        self.above = here.ad();
        site
    }
}
