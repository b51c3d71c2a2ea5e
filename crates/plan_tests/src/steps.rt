// What a plan answers on the worked hotel, over both makes of open list.
use costs::arrival_list::ArrivalList;
use costs::heap_list::HeapList;
use costs::open_list::OpenList;
use costs::sum::Sum;
use costs::worst::Worst;
use plan::answer::StepAnswer;
use plan::fault::{BuildFault, PlanFault};
use plan::state::Plan;
use std::process::Abort;
use std::test::Fail;
use survey::view::Survey;

// Desk, Hall, Stair and Room 4, with five passages, in seconds and smoke grades.
const WORKED: &[u8; 103] =
    b"F\x01\x04\x00\x05\x00SGT\x00\x04\x00X\x00\x04\x00\x5c\x00\x05\x00a\x00\x06\x00\x00\x00\x01\x00\x0a\x00\x00\x00\x05\x00\x00\x00\x00\x00\x02\x00\x14\x00\x00\x00\x02\x00\x00\x00\x01\x00\x03\x00\x0a\x00\x00\x00\x01\x00\x00\x00\x02\x00\x03\x00\x14\x00\x00\x00\x03\x00\x00\x00\x01\x00\x02\x00\x05\x00\x00\x00\x00\x00\x00\x00DeskHallStairRoom 4";

fn worked() -> Result<Survey<'static>, Fail> {
    Survey::try_from(WORKED.as_slice()).map_err(|_| Fail::new("refused"))
}

// From Desk to Room 4, with forecasts of 0.
fn answers<Q: OpenList + Drop>(rt: &impl Abort, list: Q, make: &str) -> Result<(), Fail> {
    let survey = worked()?;
    let mut plan = Plan::new(Sum, Worst, list);
    assert_eq!(rt;
        plan.open(0, 3, &[0; 4], &[0; 4]),
        Err(PlanFault::NotLoaded),
        "{make}"
    );
    assert_eq!(rt; plan.load(&survey), Ok(()), "{make}");
    assert_eq!(rt; plan.step(), Err(PlanFault::NotOpened), "{make}");
    assert_eq!(rt;
        plan.open(0, 3, &[20, 10, 20, 0], &[0; 4]),
        Ok(()),
        "{make}"
    );
    let inconsistent = PlanFault::Inconsistent { passage: 0 };
    assert_eq!(rt;
        plan.open(0, 3, &[21, 10, 20, 0], &[0; 4]),
        Err(inconsistent),
        "{make}"
    );
    assert_eq!(rt; plan.open(0, 3, &[0; 4], &[0; 4]), Ok(()), "{make}");
    let steps = [
        StepAnswer::OpenedUp(2),
        StepAnswer::OpenedUp(2),
        StepAnswer::OpenedUp(1),
        StepAnswer::OpenedUp(1),
        StepAnswer::Shown,
        StepAnswer::Dropped,
        StepAnswer::Shown,
    ];
    for step in steps {
        assert_eq!(rt; plan.step(), Ok(step), "{make}");
    }
    assert_eq!(rt; plan.step(), Err(PlanFault::Complete), "{make}");
    Ok(())
}

#[test]
fn worked_hotel(rt: HostRuntime) -> Result<(), Fail> {
    answers(&rt, HeapList::new(rt.alloc(), 2048)?, "heap")?;
    answers(&rt, ArrivalList::new(rt.alloc(), 2048)?, "order of arrival")
}

// With a leading kind that the survey's letters do not go with, and with two slots.
#[test]
fn refusals(rt: HostRuntime) -> Result<(), Fail> {
    let survey = worked()?;
    let mut turned = Plan::new(Worst, Sum, HeapList::new(rt.alloc(), 2)?);
    assert_eq!(rt; turned.load(&survey), Err(BuildFault::Letters));
    let mut small = Plan::new(Sum, Worst, HeapList::new(rt.alloc(), 2)?);
    assert_eq!(rt; small.load(&survey), Ok(()));
    assert_eq!(rt; small.open(0, 4, &[0; 4], &[0; 4]), Err(PlanFault::Ends));
    assert_eq!(rt; small.open(0, 3, &[0; 4], &[0; 4]), Ok(()));
    assert_eq!(rt; small.step(), Err(PlanFault::NoRecord));
    Ok(())
}
