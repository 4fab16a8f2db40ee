// The types that the crates share. specs/Says gives what document 01 calls each of their values.
#![tactic(auto)]

ghost use Rattle.std.specs.Prelude.{◌≡◌, ◌<◌, ◌≤◌, Some};
ghost use Rattle.model.specs.Ranges.{most_segments};
ghost use Rattle.model.specs.Equations.{sum_t, sum_v};
ghost use Rattle.model.specs.State.{numbers_at, set_lists};
ghost use Rattle.model.specs.Load.{sum_fault};
ghost use Rattle.lists.specs.Lists.{any_shorter};
ghost use Rattle.model.specs.Refusals.{test};
ghost use Rattle.terms.specs.Says.{fault_number, finding_says, numbers_say};
ghost use Rattle.terms.specs.Text.{place_text, refusal_text};
ghost use Rattle.terms.specs.Lent.{set_of, LongSet};

use lists::any_short;
use rounding::WHOLE;
use std::fmt;

// Where a refusal is at fault: "a reach, a segment, a row or nothing"; reaches, segments and rows count from 1.
#[derive(Clone, Copy, Debug, PartialEq, Eq)]
pub enum Place {
    Nothing,
    Reach(u32),
    Segment(u32),
    Row(u32),
}

// What a refusal finds at fault, in the order of the documents' numbers, which count from 1.
#[derive(Clone, Copy, Debug, PartialEq, Eq)]
pub enum Fault {
    Mark,
    SheetEnds,
    Count,
    BytesFollow,
    HeaderField,
    ReachField,
    SegmentCount,
    BoundaryRow,
    Gauge,
    Flow,
    Face,
    HalfStepSum,
    ListLength,
    Figure,
    StepsDone,
    FlowRow,
    Room,
    NotOpen,
    Band,
    Horizon,
}

// "A refusal carries its number and its place".
#[derive(Clone, Copy, Debug, PartialEq, Eq)]
pub struct Refusal {
    pub fault: Fault,
    pub place: Place,
}

impl fmt::Display for Place {
    ghost output = { λ place. Some (place_text place) };

    fn fmt<W: fmt::Write>(&self, f: &mut fmt::Formatter<W>) -> fmt::Result {
        match self {
            Place::Nothing => write!(f, "nothing"),
            Place::Reach(i) => write!(f, "reach {i}"),
            Place::Segment(i) => write!(f, "segment {i}"),
            Place::Row(i) => write!(f, "row {i}"),
        }
    }
}

// Its number, and then its place.
impl fmt::Display for Refusal {
    ghost output = { λ refusal. Some (refusal_text refusal) };

    fn fmt<W: fmt::Write>(&self, f: &mut fmt::Formatter<W>) -> fmt::Result {
        write!(f, "refused {} {}", self.fault.number(), self.place)
    }
}

impl Fault {
    // Its number in the documents.
    pub fn number(self) -> u32
        ensures { result ≡ fault_number self }
    {
        match self {
            Fault::Mark => 1,
            Fault::SheetEnds => 2,
            Fault::Count => 3,
            Fault::BytesFollow => 4,
            Fault::HeaderField => 5,
            Fault::ReachField => 6,
            Fault::SegmentCount => 7,
            Fault::BoundaryRow => 8,
            Fault::Gauge => 9,
            Fault::Flow => 10,
            Fault::Face => 11,
            Fault::HalfStepSum => 12,
            Fault::ListLength => 13,
            Fault::Figure => 14,
            Fault::StepsDone => 15,
            Fault::FlowRow => 16,
            Fault::Room => 17,
            Fault::NotOpen => 18,
            Fault::Band => 19,
            Fault::Horizon => 20,
        }
    }

    // The refusal for this fault at a place.
    pub fn at(self, place: Place) -> Refusal
        ensures { result ≡ record { fault = self; place = place } }
    {
        Refusal { fault: self, place }
    }

    // The test with this number, whose place is nothing.
    pub fn test(self, found: bool) -> Result<(), Refusal>
        ensures { finding_says result ≡ test (fault_number self) found }
    {
        if found {
            return Err(self.at(Place::Nothing));
        }
        Ok(())
    }
}

// A reach record: the sixteen fields of a reach, in the sheet's order, and in memory as C lays them out.
#[repr(C)]
#[derive(Clone, Copy, Default)]
pub struct Reach {
    pub segments: u32,
    pub dispersion: u32,
    pub area: u32,
    pub area2: u32,
    pub alpha: u32,
    pub qin: u32,
    pub qout: u32,
    pub cl: u32,
    pub lambda: u32,
    pub lambda2: u32,
    pub lamhat: u32,
    pub lamhat2: u32,
    pub rho: u32,
    pub kd: u32,
    pub cb: u32,
    pub start: u32,
}

// A, D and AS of a segment: those of its reach, or of the band that holds its flow.
#[derive(Clone, Copy)]
pub struct Hydraulics {
    pub area: u32,
    pub dispersion: u32,
    pub area2: u32,
}

// The ten half-step numbers of a segment, in parts of one whole.
#[derive(Clone, Copy)]
pub struct Numbers {
    pub e: u32,
    pub g: u32,
    pub l: u32,
    pub a: u32,
    pub b: u32,
    pub k: u32,
    pub ks: u32,
    pub h: u32,
    pub m: u32,
    pub s: u32,
}

// The ten lists of a set that is only read.
// Lists side by side, here and below, and none of structs: C lends them one by one (document 01's form). How long they are is known behind test 13 alone,
// so it is no part of a type; and what is read and what is written are two types each, since one over `&` and `&mut` would go by a type argument, no plainer.
#[derive(Clone, Copy)]
pub struct Set<'a> {
    pub e: &'a [u32],
    pub g: &'a [u32],
    pub l: &'a [u32],
    pub a: &'a [u32],
    pub b: &'a [u32],
    pub k: &'a [u32],
    pub ks: &'a [u32],
    pub h: &'a [u32],
    pub m: &'a [u32],
    pub s: &'a [u32],
}

// The fourteen lists of a loading that are only read: a set, and the four that are the same for every flow.
#[derive(Clone, Copy)]
pub struct Columns<'a> {
    pub numbers: Set<'a>,
    pub cl: &'a [u32],
    pub cb: &'a [u32],
    pub kd: &'a [u32],
    pub start: &'a [u32],
}

// The fourteen lists, lent to be written.
// A function that is lent this, or the two below, by `&mut` says that the same references come back: no type can say it.
#[derive(Drop)]
pub struct ColumnsMut<'a> {
    pub e: &'a mut [u32],
    pub g: &'a mut [u32],
    pub l: &'a mut [u32],
    pub a: &'a mut [u32],
    pub b: &'a mut [u32],
    pub k: &'a mut [u32],
    pub ks: &'a mut [u32],
    pub h: &'a mut [u32],
    pub m: &'a mut [u32],
    pub s: &'a mut [u32],
    pub cl: &'a mut [u32],
    pub cb: &'a mut [u32],
    pub kd: &'a mut [u32],
    pub start: &'a mut [u32],
}

// The three lists of a state that is only read.
#[derive(Clone, Copy)]
pub struct StateLists<'a> {
    pub channel: &'a [u32],
    pub storage: &'a [u32],
    pub sediment: &'a [u32],
}

// The three lists of a state, lent to be written.
#[derive(Drop)]
pub struct StateListsMut<'a> {
    pub channel: &'a mut [u32],
    pub storage: &'a mut [u32],
    pub sediment: &'a mut [u32],
}

// The working lists of a step.
#[derive(Drop)]
pub struct WorkingMut<'a> {
    pub p: &'a mut [u64],
    pub y: &'a mut [u64],
}

impl<'a> Set<'a> {
    // A list of the set is shorter than n.
    pub fn is_shorter(self, n: usize) -> bool
        ensures { result ≡ any_shorter n (set_lists (set_of self.entry)) }
    {
        any_short(
            n,
            &[
                self.e.len(),
                self.g.len(),
                self.l.len(),
                self.a.len(),
                self.b.len(),
                self.k.len(),
                self.ks.len(),
                self.h.len(),
                self.m.len(),
                self.s.len(),
            ],
        )
    }

    // Entry i of the ten lists, which are long enough for n segments.
    pub fn numbers_at(self, n: usize, i: usize) -> Numbers
        requires { (i < n) × (n ≤ most_segments) × LongSet n (set_of self) }
        ensures { numbers_say result ≡ numbers_at (set_of self.entry) i }
    {
        Numbers {
            e: self.e[i],
            g: self.g[i],
            l: self.l[i],
            a: self.a[i],
            b: self.b[i],
            k: self.k[i],
            ks: self.ks[i],
            h: self.h[i],
            m: self.m[i],
            s: self.s[i],
        }
    }
}

impl<'a> StateListsMut<'a> {
    // The lists, to be read.
    pub fn read(&self) -> StateLists
        ensures channel { result.channel.now ≡ self.now.channel.now }
        ensures storage { result.storage.now ≡ self.now.storage.now }
        ensures sediment { result.sediment.now ≡ self.now.sediment.now }
    {
        StateLists {
            channel: &self.channel[..],
            storage: &self.storage[..],
            sediment: &self.sediment[..],
        }
    }
}

impl Numbers {
    // T = e+g+l+a+k+s
    pub fn sum_t(self) -> u64
        ensures { result ≡ sum_t (numbers_say self) }
    {
        (self.e as u64)
            + (self.g as u64)
            + (self.l as u64)
            + (self.a as u64)
            + (self.k as u64)
            + (self.s as u64)
    }

    // V = b+ks+m
    pub fn sum_v(self) -> u64
        ensures { result ≡ sum_v (numbers_say self) }
    {
        (self.b as u64) + (self.ks as u64) + (self.m as u64)
    }

    // "T, V or h exceeds one whole", of any ten numbers.
    pub fn sum_fault(self) -> bool
        ensures { result ≡ sum_fault (numbers_say self) }
    {
        if WHOLE < self.sum_t() {
            return true;
        }
        if WHOLE < self.sum_v() {
            return true;
        }
        WHOLE < self.h as u64
    }
}
