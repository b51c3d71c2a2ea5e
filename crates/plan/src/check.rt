// The questions that an opening asks of a request.
ghost use Rattle.std.specs.Prelude.{◌≡◌, ◌<◌, ◌&&◌, ◌||◌, length, ◌==◌, slice_index};
ghost use Rattle.costs.specs.Kinds.{Kind};
ghost use Rattle.survey.specs.Questions.{decided, each, told};
ghost use Rattle.plan.specs.ListedRequests.{task_asked};
ghost use Rattle.plan.specs.Requests.{Comparable, agrees_along, both_agree, requested};
ghost use Rattle.plan.specs.Faults.{plan_refusal};
ghost use Rattle.plan.specs.Openings.{FairBuilding, Passed, consistent_questions, end_questions, fits, forecast_questions, goal_questions, leading_questions, task_questions};
ghost use Rattle.plan.specs.Views.{building_in};
ghost use Rattle.plan.specs.Ways.{Building};

use crate::fault::PlanFault;
use crate::join::joined;
use crate::listed::ListedRequest;
use crate::load::fits_kind;
use crate::numbers::check_below;
use crate::request::Request;
use crate::table::Table;
use costs::kind::CostKind;
use survey::passage::Passage;

pub(crate) fn check_task<A: CostKind, B: CostKind>(
    table: &Table,
    request: &Request,
) -> Result<(), PlanFault>
    requires { FairBuilding (building_in A.kind B.kind table.now) }
    ensures { told plan_refusal result ≡ decided (task_questions (requested request.now (building_in A.kind B.kind table.now))) tt }
{
    check_ends(table, request)?;
    let listed = ListedRequest {
        table,
        request: *request,
    };
    listed.check_forecasts::<A, B>()?;
    listed.check_goal()?;
    listed.check_leading::<A>()?;
    listed.check_consistent::<A, B>()
}

fn check_ends(table: &Table, request: &Request) -> Result<(), PlanFault>
    ensures { (k m : Kind) → told plan_refusal result ≡ decided (end_questions (requested request.now (building_in k m table.now))) tt }
{
    let places = table.places.len();
    if usize::from(request.ends.start) >= places || usize::from(request.ends.goal) >= places {
        return Err(PlanFault::Ends);
    }
    if request.slots == 0 {
        return Err(PlanFault::NoSlot);
    }
    if request.leading.len() != places || request.second.len() != places {
        return Err(PlanFault::Forecasts);
    }
    Ok(())
}

impl ListedRequest<'_, '_, '_> {
    fn check_forecasts<A: CostKind, B: CostKind>(&self) -> Result<(), PlanFault>
        ensures { told plan_refusal result ≡ decided (each (length self.now.table.now.places.items) (forecast_questions (task_asked A.kind B.kind self.now))) tt }
    {
        let places = self.table.place_count();
        let fits = |place| self.forecasts_fit::<A, B>(place);
        check_below(places, fits).map_err(|place| PlanFault::Forecast { place })
    }

    fn forecasts_fit<A: CostKind, B: CostKind>(&self, place: u16) -> bool
        requires { place < length self.now.table.now.places.items }
        ensures { result ≡ (fits A.kind (slice_index self.now.request.leading.now place) A.kind.forecast_ceiling && fits B.kind (slice_index self.now.request.second.now place) B.kind.forecast_ceiling) }
    {
        let at = usize::from(place);
        fits_kind::<A>(self.request.leading[at], A::forecast_ceiling())
            && fits_kind::<B>(self.request.second[at], B::forecast_ceiling())
    }

    fn check_goal(&self) -> Result<(), PlanFault>
        ensures { (b : Building) → told plan_refusal result ≡ decided (goal_questions (requested self.now.request b)) tt }
    {
        let goal = usize::from(self.request.ends.goal);
        if self.request.leading[goal] != 0 || self.request.second[goal] != 0 {
            return Err(PlanFault::AtGoal);
        }
        Ok(())
    }

    fn check_leading<A: CostKind>(&self) -> Result<(), PlanFault>
        ensures { (m : Kind) → told plan_refusal result ≡ decided (each (length self.now.table.now.places.items) (leading_questions (task_asked A.kind m self.now))) tt }
    {
        let places = self.table.place_count();
        let allowed = |place| self.leading_allowed::<A>(place);
        check_below(places, allowed).map_err(|place| PlanFault::Leading { place })
    }

    // Forecasts of a leading cost that does not cancel would hide which of two totals is less.
    fn leading_allowed<A: CostKind>(&self, place: u16) -> bool
        requires { place < length self.now.table.now.places.items }
        ensures { result ≡ (A.kind.cancels || slice_index self.now.request.leading.now place == 0) }
    {
        A::cancels() || self.request.leading[usize::from(place)] == 0
    }

    fn check_consistent<A: CostKind, B: CostKind>(&self) -> Result<(), PlanFault>
        requires building { FairBuilding (building_in A.kind B.kind self.now.table.now) }
        requires fits { Passed (each (length self.now.table.now.places.items) (forecast_questions (task_asked A.kind B.kind self.now))) }
        ensures { told plan_refusal result ≡ decided (each (length self.now.table.now.passages.items) (consistent_questions (task_asked A.kind B.kind self.now))) tt }
    {
        let passages = self.table.passage_count();
        let consistent = |passage| self.both_consistent::<A, B>(passage);
        check_below(passages, consistent).map_err(|passage| PlanFault::Inconsistent { passage })
    }

    fn both_consistent<A: CostKind, B: CostKind>(&self, number: u16) -> bool
        requires inside { number < length self.now.table.now.passages.items }
        requires building { FairBuilding (building_in A.kind B.kind self.now.table.now) }
        requires fits { Passed (each (length self.now.table.now.places.items) (forecast_questions (task_asked A.kind B.kind self.now))) }
        ensures { result ≡ both_agree (task_asked A.kind B.kind self.now) number }
    {
        let passage = self.table.link(number).passage;
        is_consistent::<A>(self.request.leading, passage, passage.leading)
            && is_consistent::<B>(self.request.second, passage, passage.second)
    }
}

fn is_consistent<K: CostKind>(forecasts: &[u32], passage: Passage, value: u32) -> bool
    requires { Comparable K.kind forecasts.now passage value }
    ensures { result ≡ agrees_along K.kind forecasts.now passage value }
{
    let from = usize::from(passage.from);
    let to = usize::from(passage.to);
    forecasts[from] <= joined::<K>(value, forecasts[to])
}
