// The number and the spot of each fault, as they are printed.
ghost use Rattle.std.specs.Prelude.{◌≡◌};
ghost use Rattle.plan.specs.Faults.{build_refusal, plan_refusal};

use crate::fault::{BuildFault, PlanFault};
use survey::refusal::Refusal;

impl From<BuildFault> for Refusal {
    ghost from_gives = { λ f r. r ≡ build_refusal f };

    fn from(fault: BuildFault) -> Refusal {
        match fault {
            BuildFault::Letters => refusal(9, 0),
            BuildFault::Values { passage } => refusal(10, u32::from(passage)),
        }
    }
}

impl From<PlanFault> for Refusal {
    ghost from_gives = { λ f r. r ≡ plan_refusal f };

    fn from(fault: PlanFault) -> Refusal {
        match fault {
            PlanFault::NotLoaded => refusal(11, 0),
            PlanFault::Ends => refusal(12, 0),
            PlanFault::NoSlot => refusal(13, 0),
            PlanFault::Forecasts => refusal(14, 0),
            PlanFault::Forecast { place } => refusal(15, u32::from(place)),
            PlanFault::AtGoal => refusal(16, 0),
            PlanFault::Leading { place } => refusal(17, u32::from(place)),
            PlanFault::Inconsistent { passage } => refusal(18, u32::from(passage)),
            PlanFault::NotOpened => refusal(19, 0),
            PlanFault::Complete => refusal(20, 0),
            PlanFault::NoRecord => refusal(21, 0),
            PlanFault::NoChoice => refusal(22, 0),
            PlanFault::Legs { needed } => refusal(23, u32::from(needed)),
        }
    }
}

fn refusal(number: u32, spot: u32) -> Refusal
    ensures { result ≡ record { number = number; spot = spot } }
{
    Refusal { number, spot }
}
