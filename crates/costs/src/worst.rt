// Grades of which the worst counts: smoke, from 0 to 15.
ghost use Rattle.costs.specs.Kinds.{worst};
ghost use Rattle.std.proofs.Common.{rules};

use crate::kind::CostKind;

const WORST_GRADE: u32 = 15;

#[derive(Clone, Copy)]
pub struct Worst;

impl CostKind for Worst {
    ghost kind = { worst };

    ghost lawful = { Prim.search rules };

    fn carries(letter: u8) -> bool {
        letter == b'G'
    }

    fn is_value(number: u32) -> bool {
        number <= WORST_GRADE
    }

    fn join(first: u32, second: u32) -> Option<u32> {
        let both = Self::is_value(first) && Self::is_value(second);
        both.then_some(first.max(second))
    }

    fn passage_ceiling() -> u32 {
        WORST_GRADE
    }

    fn forecast_ceiling() -> u32 {
        WORST_GRADE
    }

    fn cancels() -> bool {
        false
    }
}
