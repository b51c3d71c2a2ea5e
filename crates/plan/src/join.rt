// Joins that are known to have a result.
ghost use Rattle.std.specs.Prelude.{◌≡◌};
ghost use Rattle.plan.specs.Joins.{Joined};

use costs::kind::CostKind;

pub(crate) fn joined<K: CostKind>(first: u32, second: u32) -> u32
    requires { Joined K.CostKind.kind first second }
    ensures { result ≡ K.CostKind.kind.joined first second }
{
    K::join(first, second).unwrap()
}
