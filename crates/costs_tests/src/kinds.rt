// What the two kinds join, and the limits of it.
use crate::either_way::either_way;
use costs::kind::CostKind;
use costs::sum::Sum;
use costs::worst::Worst;

#[test]
fn sum_joins_up_to_the_limit(rt: HostRuntime) {
    assert_eq!(rt; Sum::join(0, 7), Some(7));
    assert_eq!(rt; Sum::join(1_999_999_999, 1), Some(2_000_000_000));
    assert_eq!(rt; Sum::join(1_999_999_999, 2), None);
    assert_eq!(rt; Sum::join(u32::MAX, u32::MAX), None);
}

#[test]
fn worst_joins_grades(rt: HostRuntime) {
    assert_eq!(rt; Worst::join(7, 12), Some(12));
    assert_eq!(rt; Worst::join(15, 0), Some(15));
    assert_eq!(rt; Worst::join(7, 16), None);
    assert_eq!(rt; Worst::join(16, 7), None);
}

#[test]
fn letters_and_ceilings(rt: HostRuntime) {
    assert!(rt;
        Sum::carries(b'L') && Sum::carries(b'S') && Sum::carries(b'W') && !Sum::carries(b'G')
    );
    assert!(rt; Worst::carries(b'G') && !Worst::carries(b'L'));
    assert_eq!(rt; Sum::passage_ceiling(), 1_000_000);
    assert_eq!(rt; Sum::forecast_ceiling(), 1_000_000_000);
    assert_eq!(rt; Worst::passage_ceiling(), 15);
    assert_eq!(rt; Worst::forecast_ceiling(), 15);
    assert!(rt; Sum::cancels() && !Worst::cancels());
    assert!(rt; Sum::is_value(u32::MAX) && Worst::is_value(15) && !Worst::is_value(16));
}

#[test]
fn joins_from_either_side(rt: HostRuntime) {
    assert_eq!(rt; either_way::<Sum>(1, 20, 300), Some((321, 321)));
    assert_eq!(rt; either_way::<Worst>(3, 9, 5), Some((9, 9)));
    assert_eq!(rt; either_way::<Worst>(3, 9, 16), None);
}
