// Why loading, and why a call of the plan is refused.

#[derive(Clone, Copy, Debug, PartialEq, Eq)]
pub enum BuildFault {
    // A kind of the plan does not carry its letter of the survey.
    Letters,
    // A number of the passage is no value of its kind, or passes the ceiling for passages.
    Values { passage: u16 },
}

#[derive(Clone, Copy, Debug, PartialEq, Eq)]
pub enum PlanFault {
    // No building is loaded.
    NotLoaded,
    // The start or the goal is no place.
    Ends,
    // The open list has no slot.
    NoSlot,
    // There are not as many forecasts as places.
    Forecasts,
    // A forecast of the place is no value of its kind, or passes the ceiling for forecasts.
    Forecast { place: u16 },
    // A forecast of the goal is not 0.
    AtGoal,
    // The leading kind does not cancel, and the leading forecast of the place is not 0.
    Leading { place: u16 },
    // A forecast is not consistent along the passage.
    Inconsistent { passage: u16 },
    // The plan is not opened.
    NotOpened,
    // No entry waits: every choice was shown.
    Complete,
    // Fewer records are free than there are children.
    NoRecord,
    // No choice with this number was shown.
    NoChoice,
    // The list of legs is shorter than the way.
    Legs { needed: u16 },
}
