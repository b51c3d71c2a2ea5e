// What the reader answers, case by case.
use crate::hotel::{Shape, WORKED, file_of};
use std::process::Abort;
use std::test::Fail;
use survey::fault::ReadFault;
use survey::layout::Layout;
use survey::passage::Passage;
use survey::refusal::Refusal;
use survey::view::Survey;

// The refusal's number and spot, or 0 and 0 where the file is accepted.
fn outcome(bytes: &[u8]) -> (u32, u32) {
    Layout::check(bytes).map_or_else(told, |_| (0, 0))
}

fn told(fault: ReadFault) -> (u32, u32) {
    let Refusal { number, spot } = fault.into();
    (number, spot)
}

fn worked() -> Result<Survey<'static>, Fail> {
    Survey::try_from(WORKED.as_slice()).map_err(|_| Fail::new("refused"))
}

#[test]
fn worked_hotel(rt: HostRuntime) -> Result<(), Fail> {
    assert_eq!(rt; outcome(WORKED), (0, 0));
    let survey = worked()?;
    assert_eq!(rt; (survey.places(), survey.passages()), (4, 5));
    assert_eq!(rt; survey.letters(), (b'S', b'G'));
    let last = Passage {
        from: 1,
        to: 2,
        leading: 5,
        second: 0,
    };
    assert_eq!(rt; survey.passage(4), Some(last));
    assert_eq!(rt; survey.passage(5), None);
    assert_eq!(rt; survey.find(b"Room 4"), Some(3));
    assert_eq!(rt; survey.find(b"Room"), None);
    Ok(())
}

// On a view that is made of a layout which was kept.
#[test]
fn worked_labels(rt: HostRuntime) -> Result<(), Fail> {
    let Ok(layout) = Layout::check(WORKED) else {
        return Err(Fail::new("refused"));
    };
    let survey = Survey::new(WORKED, layout);
    assert_eq!(rt; survey.label(2), Ok(b"Stair".as_slice()));
    assert_eq!(rt; survey.label(4).map_err(told), Err((24, 0)));
    Ok(())
}

// The second line for the seconds, or the first where the place does not exist.
fn minutes(rt: &impl Abort, seconds: u32) -> Result<[u8; 16], Fail> {
    let survey = worked()?;
    let mut first = [b'?'; 16];
    let mut second = [b'?'; 16];
    assert!(rt; survey.lines(4, seconds, &mut first, &mut second).is_err());
    assert!(rt; first == [b'?'; 16] && second == [b'?'; 16]);
    assert!(rt; survey.lines(3, seconds, &mut first, &mut second).is_ok());
    assert!(rt; first == *b"Room 4          ");
    Ok(second)
}

#[test]
fn repeater_lines(rt: HostRuntime) -> Result<(), Fail> {
    assert_eq!(rt; minutes(&rt, 0)?, *b"0 min           ");
    assert_eq!(rt; minutes(&rt, 59)?, *b"0 min           ");
    assert_eq!(rt; minutes(&rt, 60)?, *b"1 min           ");
    assert_eq!(rt; minutes(&rt, 119)?, *b"1 min           ");
    assert_eq!(rt; minutes(&rt, u32::MAX)?, *b"71582788 min    ");
    Ok(())
}

#[test]
fn refused_by_hand(rt: HostRuntime) {
    assert_eq!(rt; outcome(b"F\x01\x01\x00\x00\x00S"), (1, 0));
    assert_eq!(rt; outcome(b"F\x02\x01\x00\x00\x00SG"), (2, 0));
    assert_eq!(rt; outcome(b"G\x01\x01\x00\x00\x00SG"), (2, 0));
    assert_eq!(rt; outcome(b"F\x01\x01\x00\x00\x00SG\x0c\x00\x01"), (4, 0));
    assert_eq!(rt; outcome(b"F\x01\x01\x00\x00\x00SG\x0c\x00\x01\x00"), (6, 0));
    assert_eq!(rt;
        outcome(b"F\x01\x01\x00\x00\x00SG\x0c\x00\x01\x00a"),
        (0, 0)
    );
    assert_eq!(rt;
        outcome(b"F\x01\x01\x00\x00\x00SG\x0b\x00\x01\x00a"),
        (6, 0)
    );
    assert_eq!(rt;
        outcome(b"F\x01\x01\x00\x00\x00SG\x0c\x00\x01\x00ab"),
        (8, 0)
    );
    let worked: &[u8] = WORKED;
    assert_eq!(rt; outcome(&worked[0..102]), (6, 3));
}

#[derive(Clone, Copy)]
struct Case<'a> {
    shape: Shape<'a>,
    told: (u32, u32),
}

const fn of<'a>(
    places: u16,
    passages: u16,
    to: u16,
    label: &'a [u8],
    number: u32,
    spot: u32,
) -> Case<'a> {
    Case {
        shape: Shape {
            places,
            passages,
            to,
            label,
        },
        told: (number, spot),
    }
}

// Each limit from both sides.
#[test]
fn limits(rt: HostRuntime) -> Result<(), Fail> {
    let cases = [
        of(0, 0, 0, b"a", 3, 0),
        of(1, 0, 0, b"a", 0, 0),
        of(256, 1024, 255, b"0123456789abcdef", 0, 0),
        of(257, 0, 0, b"a", 3, 0),
        of(1, 1025, 0, b"a", 3, 0),
        of(3, 2, 2, b"a", 0, 0),
        of(3, 2, 3, b"a", 5, 0),
        of(2, 0, 0, b"", 6, 0),
        of(2, 0, 0, b"0123456789abcdefg", 6, 0),
        of(2, 0, 0, b"\x20\x7e", 0, 0),
        of(2, 0, 0, b"a\x1f", 7, 0),
        of(2, 0, 0, b"\x7f", 7, 0),
    ];
    for c in &cases {
        let file = file_of(rt.alloc(), c.shape)?;
        assert_eq!(rt; outcome(file.as_slice()), c.told);
    }
    Ok(())
}

// One byte more than a survey, and questions 6 and 7 label by label.
#[test]
fn order_of_questions(rt: HostRuntime) -> Result<(), Fail> {
    let mut longer = WORKED.to_vec(rt.alloc())?;
    longer.push(b'!')?;
    assert_eq!(rt; outcome(longer.as_slice()), (8, 0));
    let mut file = WORKED.to_vec(rt.alloc())?;
    file[86] = 0x1f;
    file[12] = 0;
    // Label 0 holds a wrong byte, and label 1 begins at a wrong offset.
    assert_eq!(rt; outcome(file.as_slice()), (7, 0));
    Ok(())
}
