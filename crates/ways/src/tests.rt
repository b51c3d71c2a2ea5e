// What a job answers, on the shipped hotel and on inputs cut short.
use crate::fault::JobFault;
use crate::job::describe;
use std::test::Fail;

const WORKED: &[u8; 107] =
    b"\x00\x00\x03\x00F\x01\x04\x00\x05\x00SGT\x00\x04\x00X\x00\x04\x00\x5c\x00\x05\x00a\x00\x06\x00\x00\x00\x01\x00\x0a\x00\x00\x00\x05\x00\x00\x00\x00\x00\x02\x00\x14\x00\x00\x00\x02\x00\x00\x00\x01\x00\x03\x00\x0a\x00\x00\x00\x01\x00\x00\x00\x02\x00\x03\x00\x14\x00\x00\x00\x03\x00\x00\x00\x01\x00\x02\x00\x05\x00\x00\x00\x00\x00\x00\x00DeskHallStairRoom 4";

// The number and the spot of the refusal, or 0 and 0.
fn told(fault: JobFault) -> (u32, u32) {
    fault
        .refusal()
        .map_or((0, 0), |refusal| (refusal.number, refusal.spot))
}

#[test]
fn refusals(rt: HostRuntime) -> Result<(), Fail> {
    let worked: &[u8] = WORKED;
    for (len, number, spot) in [(0usize, 25, 0), (3, 25, 0), (4, 1, 0), (106, 6, 3)] {
        let Some(input) = worked.get(0..len) else {
            return Err(Fail::new("too long"));
        };
        let fault = describe(input, Vec::new(rt.alloc())).err();
        assert_eq!(rt; fault.map(told), Some((number, spot)));
    }
    Ok(())
}

#[test]
fn no_such_ends(rt: HostRuntime) -> Result<(), Fail> {
    let input = b"\x01\x00\x02\x01F\x01\x01\x00\x00\x00 \x0a\x0c\x00\x01\x00a";
    let lines =
        b"places 1\npassages 0\nletters #32 #10\nplace 0 a\nstart 1 no such place\ngoal 258 no such place\n";
    let Ok(text) = describe(input, Vec::new(rt.alloc())) else {
        return Err(Fail::new("refused"));
    };
    assert!(rt; text.as_slice() == lines.as_slice());
    Ok(())
}
