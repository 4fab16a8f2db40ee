// Answers, written for a C caller.
#![tactic(auto)]

ghost use Rattle.std.specs.Prelude.{◌≡◌};
ghost use Rattle.std.specs.Result.{result_ok};
ghost use Rattle.terms.specs.Says.{place_says, finding_says};
ghost use Rattle.assembly.specs.Says.{load_says};
ghost use Rattle.boundary.specs.Says.{upstream_says};
ghost use Rattle.otis.specs.Says.{answer_says, report_says};
ghost use Rattle.otis.specs.Outcomes.{handed};
ghost use Rattle.search.specs.Says.{search_says};
ghost use Rattle.forecast.specs.Says.{forecast_says};
ghost use Rattle.answers.specs.Answers.{kind_number, place_number, found_by, Tells, ReportHanded, loaded_values, segment_number, above_number};

use assembly::Loaded;
use forecast::Forecast;
use otis::{Figures, River};
use terms::{Place, Refusal};

// The three numbers that every call writes: 0 or the number of the refusal, and the kind and the number of its place.
#[derive(Drop)]
pub struct Verdict<'a> {
    pub number: &'a mut u32,
    pub kind: &'a mut u32,
    pub place: &'a mut u32,
}

// A place's kind, 0 nothing, 1 a reach, 2 a segment, 3 a row, and the number of the reach, segment or row, 0 for nothing.
fn numbers_of(at: Place) -> (u32, u32)
    ensures { result ≡ (kind_number (place_says at), place_number (place_says at)) }
{
    match at {
        Place::Nothing => (0, 0),
        Place::Reach(i) => (1, i),
        Place::Segment(i) => (2, i),
        Place::Row(i) => (3, i),
    }
}

impl<'a> Verdict<'a> {
    fn put(self, number: u32, at: Place)
        ensures { (self.exit.0.now ≡ number) × (self.exit.1.0.now ≡ kind_number (place_says at))
            × (self.exit.1.1.0.now ≡ place_number (place_says at)) }
    {
        let (kind, place) = numbers_of(at);
        *self.number = number;
        *self.kind = kind;
        *self.place = place;
    }

    // Writes them for an answer, and hands its value on.
    pub fn tell<T>(self, answer: Result<T, Refusal>) -> Option<T>
        ensures told { Tells (finding_says answer) self.exit }
        ensures value { result ≡ result_ok answer }
    {
        match answer {
            Ok(value) => {
                self.put(0, Place::Nothing);
                Some(value)
            }
            Err(refusal) => {
                self.put(refusal.fault.number(), refusal.place);
                None
            }
        }
    }
}

pub fn put_load(answer: Result<Loaded, Refusal>, verdict: Verdict, loaded: &mut [u32; 9])
    ensures told { Tells (found_by (load_says answer)) verdict.exit }
    ensures values { loaded.new ≡ handed (load_says answer) loaded_values loaded.old }
{
    if let Some(v) = verdict.tell(answer) {
        *loaded = [
            v.steps,
            v.interval,
            v.segments,
            v.rowsat,
            v.rows,
            v.gaugesat,
            v.gauges,
            v.flowrowsat,
            v.flowrows,
        ];
    }
}

// Of a start or a step.
pub fn put_river(
    answer: Result<River, Refusal>,
    verdict: Verdict,
    upstream: &mut u32,
    done: &mut u32,
)
    ensures told { Tells (found_by (answer_says answer)) verdict.exit }
    ensures upstream { upstream.new ≡ handed (answer_says answer) (λ v. v.upstream) upstream.old }
    ensures done { done.new ≡ handed (answer_says answer) (λ v. v.steps) done.old }
{
    if let Some(river) = verdict.tell(answer) {
        *upstream = river.upstream;
        *done = river.steps;
    }
}

pub fn put_report(
    answer: Result<Figures, Refusal>,
    verdict: Verdict,
    c: &mut u32,
    z: &mut u32,
    kdw: &mut u64,
)
    ensures { ReportHanded (report_says answer) verdict.exit.0.now verdict.exit.1.0.now verdict.exit.1.1.0.now c.old z.old kdw.old c.new z.new kdw.new }
{
    if let Some(figures) = verdict.tell(answer) {
        *c = figures.channel;
        *z = figures.storage;
        *kdw = figures.sediment;
    }
}

pub fn put_upstream(answer: Result<u32, Refusal>, verdict: Verdict, u: &mut u32)
    ensures told { Tells (found_by (upstream_says answer)) verdict.exit }
    ensures u { u.new ≡ handed (upstream_says answer) (λ v. v) u.old }
{
    if let Some(figure) = verdict.tell(answer) {
        *u = figure;
    }
}

// `segment` is 0 where none was found.
pub fn put_search(answer: Result<Option<u32>, Refusal>, verdict: Verdict, segment: &mut u32)
    ensures told { Tells (found_by (search_says answer)) verdict.exit }
    ensures segment { segment.new ≡ handed (search_says answer) segment_number segment.old }
{
    if let Some(found) = verdict.tell(answer) {
        *segment = found.unwrap_or(0);
    }
}

// `above` is 1 where the gauge is above the limit at step `done`, and 0 where it is at none up to there.
pub fn put_forecast(
    answer: Result<Forecast, Refusal>,
    verdict: Verdict,
    above: &mut u32,
    upstream: &mut u32,
    done: &mut u32,
)
    ensures told { Tells (found_by (forecast_says answer)) verdict.exit }
    ensures above { above.new ≡ handed (forecast_says answer) (λ v. above_number v.found) above.old }
    ensures upstream { upstream.new ≡ handed (forecast_says answer) (λ v. v.upstream) upstream.old }
    ensures done { done.new ≡ handed (forecast_says answer) (λ v. v.steps) done.old }
{
    if let Some(forecast) = verdict.tell(answer) {
        let (figure, copies) = match forecast {
            Forecast::Above(river) => (1, river),
            Forecast::NotAbove(river) => (0, river),
        };
        *above = figure;
        *upstream = copies.upstream;
        *done = copies.steps;
    }
}
