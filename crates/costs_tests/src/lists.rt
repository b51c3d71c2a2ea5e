// What open lists answer: on a few entries, and both makes beside each other.
use crate::fresh::first_answers;
use costs::arrival_list::ArrivalList;
use costs::both::call_on_both;
use costs::call::Call;
use costs::entry::Entry;
use costs::full::Full;
use costs::heap_list::HeapList;
use costs::open_list::OpenList;
use std::process::Abort;
use std::test::Fail;

fn entry(leading: u32, second: u32, record: u32) -> Entry {
    Entry {
        leading,
        second,
        record,
    }
}

// Three entries go in and come out by rising leading estimate, then second estimate, then record.
fn serves<L: OpenList>(rt: &impl Abort, list: &mut L, make: &str) {
    assert_eq!(rt; list.look(), None, "{make}");
    assert_eq!(rt; list.take(), None, "{make}");
    assert_eq!(rt; list.put(entry(3, 9, 0)), Ok(()), "{make}");
    assert_eq!(rt; list.put(entry(3, 2, 2)), Ok(()), "{make}");
    assert_eq!(rt; list.put(entry(3, 2, 1)), Ok(()), "{make}");
    assert_eq!(rt; list.put(entry(0, 0, 0)), Err(Full), "{make}");
    assert_eq!(rt; list.count(), 3, "{make}");
    assert_eq!(rt; list.look(), Some(entry(3, 2, 1)), "{make}");
    assert_eq!(rt; list.take(), Some(entry(3, 2, 1)), "{make}");
    assert_eq!(rt; list.take(), Some(entry(3, 2, 2)), "{make}");
    list.clear();
    assert_eq!(rt; list.count(), 0, "{make}");
    assert_eq!(rt; list.slots(), 3, "{make}");
}

#[test]
fn each_make_serves(rt: HostRuntime) -> Result<(), Fail> {
    let mut tree = HeapList::new(rt.alloc(), 3)?;
    let mut row = ArrivalList::new(rt.alloc(), 3)?;
    serves(&rt, &mut tree, "heap");
    serves(&rt, &mut row, "order of arrival");
    Ok(())
}

#[test]
fn slots_have_a_limit(rt: HostRuntime) -> Result<(), Fail> {
    assert_eq!(rt; HeapList::new(rt.alloc(), 3_000)?.slots(), 2_048);
    assert_eq!(rt; ArrivalList::new(rt.alloc(), 3_000)?.slots(), 2_048);
    let (tree, row) = first_answers(rt.alloc(), 0, Call::Put(entry(1, 1, 1)))?;
    assert_eq!(rt; tree, row);
    Ok(())
}

// The next of a row of numbers in no order.
fn next(seed: u32) -> u32 {
    seed.wrapping_mul(1_664_525).wrapping_add(1_013_904_223)
}

// Mostly puts and takes, now and then another call.
fn call_by(seed: u32) -> Call {
    let number = seed >> 8;
    match seed >> 28 {
        0 => Call::Count,
        1 => Call::Look,
        2..=9 => Call::Put(entry(number % 11, number % 7, number % 5)),
        _ => Call::Take,
    }
}

#[test]
fn makes_answer_the_same(rt: HostRuntime) -> Result<(), Fail> {
    let mut tree = HeapList::new(rt.alloc(), 24)?;
    let mut row = ArrivalList::new(rt.alloc(), 24)?;
    let mut seed = 7;
    for turn in 0..900 {
        seed = next(seed);
        let call = if turn == 700 {
            Call::Clear
        } else {
            call_by(seed)
        };
        let (by_tree, by_row) = call_on_both(&mut tree, &mut row, call);
        assert_eq!(rt; by_tree, by_row);
    }
    Ok(())
}
