// Loading: the passages of a checked survey become the building of the plan.
ghost use Rattle.std.specs.Prelude.{◌≡◌, ◌<◌};
ghost use Rattle.survey.specs.File.{byte, passages};
ghost use Rattle.survey.specs.Questions.{decided, each, told};
ghost use Rattle.survey.specs.View.{file};
ghost use Rattle.plan.specs.Calls.{Untouched, settled};
ghost use Rattle.plan.specs.Faults.{build_refusal};
ghost use Rattle.plan.specs.Openings.{building_of, fits, load_questions, value_questions, values_fit};
ghost use Rattle.plan.specs.Stages.{stage};
ghost use Rattle.plan.specs.Views.{loaded};
ghost use Rattle.plan.specs.Ways.{passage};

use crate::fault::BuildFault;
use crate::numbers::check_below;
use crate::state::{Phase, Plan};
use costs::kind::CostKind;
use costs::open_list::OpenList;
use survey::passage::Passage;
use survey::view::Survey;

impl<A: CostKind, B: CostKind, Q: OpenList> Plan<A, B, Q> {
    // Ends an earlier opening.
    #[tactic(auto, using(crate::proofs::Loading::letters_carried, crate::proofs::Loading::fair_filled))]
    pub fn load(&mut self, survey: &Survey) -> Result<(), BuildFault>
        ensures cases { told build_refusal result ≡ decided (load_questions (byte (file survey.now) 6) (byte (file survey.now) 7) (building_of A.kind B.kind (file survey.now))) tt }
        ensures stage { stage self.new ≡ settled result (loaded (building_of A.kind B.kind (file survey.now))) (stage self.old) }
        ensures list { self.new.list ≡ self.old.list }
        ensures refused { Untouched result self.old self.new }
    {
        let (leading, second) = survey.letters();
        if !A::carries(leading) || !B::carries(second) {
            return Err(BuildFault::Letters);
        }
        check_values::<A, B>(survey)?;
        self.table.fill(survey);
        self.phase = Phase::Loaded;
        Ok(())
    }
}

// Whether the number is a value of the kind within the ceiling.
pub(crate) fn fits_kind<K: CostKind>(number: u32, ceiling: u32) -> bool
    ensures { result ≡ fits K.kind number ceiling }
{
    K::is_value(number) && number <= ceiling
}

// Its like for forecasts is `forecasts_fit`: one function of both would take two ceilings beside two numbers, and be no plainer.
fn values_fit<A: CostKind, B: CostKind>(passage: Passage) -> bool
    ensures { result ≡ values_fit A.kind B.kind passage }
{
    fits_kind::<A>(passage.leading, A::passage_ceiling())
        && fits_kind::<B>(passage.second, B::passage_ceiling())
}

fn passage_fits<A: CostKind, B: CostKind>(survey: &Survey, number: u16) -> bool
    requires { number < passages (file survey.now) }
    ensures { result ≡ values_fit A.kind B.kind (passage (building_of A.kind B.kind (file survey.now)) number) }
{
    values_fit::<A, B>(survey.passage(number).unwrap())
}

fn check_values<A: CostKind, B: CostKind>(survey: &Survey) -> Result<(), BuildFault>
    ensures { told build_refusal result ≡ decided (each (passages (file survey.now)) (value_questions (building_of A.kind B.kind (file survey.now)))) tt }
{
    let fits = |number| passage_fits::<A, B>(survey, number);
    check_below(survey.passages(), fits).map_err(|passage| BuildFault::Values { passage })
}
