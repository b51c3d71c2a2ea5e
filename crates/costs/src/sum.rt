// Costs that add up: centimetres, seconds, walls pierced.
ghost use Rattle.costs.specs.Kinds.{sum};
ghost use Rattle.std.proofs.Common.{rules};

use crate::kind::{CostKind, within_limit};

#[derive(Clone, Copy)]
pub struct Sum;

impl CostKind for Sum {
    ghost kind = { sum };

    ghost lawful = { Prim.search rules };

    fn carries(letter: u8) -> bool {
        letter == b'L' || letter == b'S' || letter == b'W'
    }

    fn is_value(_number: u32) -> bool {
        true
    }

    fn join(first: u32, second: u32) -> Option<u32> {
        within_limit(first, second).then(|| first + second)
    }

    fn passage_ceiling() -> u32 {
        1_000_000
    }

    fn forecast_ceiling() -> u32 {
        1_000_000_000
    }

    fn cancels() -> bool {
        true
    }
}
