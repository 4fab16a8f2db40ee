// The segments of a sheet that its own tests pass, one after another down the river, and tests 10 to 12 with each of its flows.
#![tactic(auto)]

ghost use Rattle.std.specs.Prelude.{◌≡◌};
ghost use Rattle.model.specs.Sheet.{flow_row_count};
ghost use Rattle.model.specs.Flow.{course_of};
ghost use Rattle.model.specs.HalfStep.{site_at};
ghost use Rattle.model.specs.Refusals.{segment, test_each};
ghost use Rattle.model.specs.Load.{test_flows};
ghost use Rattle.terms.specs.Says.{fault_number, finding_says};
ghost use Rattle.halfstep.specs.Site.{site_says};
ghost use Rattle.course.specs.Segments.{site_fault, Clear, ClearFlows, ClearSite, Read};
ghost use Rattle.course.specs.Tests.{test_number};

use descent::Descent;
use halfstep::Site;
use sheet::fields::flow_row_count;
use terms::{Fault, Place, Refusal};

pub mod descent;

// 10. "A flow is below 0 or above 100,000,000", 11. "Q × dx exceeds AD own + AD below", 12. "T, V or h exceeds one whole".
// An enum and no closure: what a test may ask of a site goes by its number, which a closure does not have.
#[derive(Clone, Copy, Debug, PartialEq, Eq)]
pub enum SegmentTest {
    Flow,
    Face,
    HalfStepSum,
}

impl SegmentTest {
    // What it finds at fault.
    fn fault(self) -> Fault
        ensures { fault_number result ≡ test_number self }
    {
        match self {
            SegmentTest::Flow => Fault::Flow,
            SegmentTest::Face => Fault::Face,
            SegmentTest::HalfStepSum => Fault::HalfStepSum,
        }
    }

    // It finds this segment at fault.
    #[tactic(auto, using(crate::proofs::River::clear), unfolding(crate::specs::Segments::site_fault))]
    fn finds(self, site: Site) -> bool
        requires { ClearSite (test_number self) (site_says site) }
        ensures { result ≡ site_fault (test_number self) (site_says site) }
    {
        match self {
            SegmentTest::Flow => site.flow_fault(),
            SegmentTest::Face => site.face_fault(),
            SegmentTest::HalfStepSum => site.numbers().sum_fault(),
        }
    }
}

// One of these tests over the whole river with the flow of this row: "the lowest at fault".
fn course_test(sheet: &[u8], row: u32, n: usize, test: SegmentTest) -> Result<(), Refusal>
    requires { Read sheet.now n × Clear (test_number test) n (course_of sheet.now row) }
    ensures { let number = test_number test in
        finding_says result ≡ test_each number segment n (λ i. site_fault number (site_at (course_of sheet.now row) i)) }
{
    let mut descent = Descent::first(sheet, row, n);
    for i in 0..n {
        let site = descent.next_site();
        if test.finds(site) {
            return Err(test.fault().at(Place::Segment(i as u32 + 1)));
        }
    }
    Ok(())
}

// The test "made for the top flow and then for every row in turn"; "the first flow at fault gives the place".
// The sheet and n go side by side here and above, and `Read` with them: a sheet is what C lends, bytes, and a struct of both would be made in each call.
pub fn flows_test(sheet: &[u8], n: usize, test: SegmentTest) -> Result<(), Refusal>
    requires { Read sheet.now n × ClearFlows (test_number test) n sheet.now }
    ensures { let s = sheet.now in let number = test_number test in finding_says result ≡ test_flows (flow_row_count s)
        (λ row. test_each number segment n (λ i. site_fault number (site_at (course_of s row) i))) }
{
    for row in 0..=flow_row_count(sheet) {
        course_test(sheet, row, n, test)?;
    }
    Ok(())
}
