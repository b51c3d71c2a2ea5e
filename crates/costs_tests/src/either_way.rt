// Three costs of any kind, joined from the left and from the right: the same, by the kind's laws.
ghost use Rattle.std.specs.Prelude.{◌≡◌, ◌+◌, ◌≤◌, IfSome};

use costs::kind::CostKind;

pub fn either_way<K: CostKind>(first: u32, second: u32, third: u32) -> Option<(u32, u32)>
    ensures value { IfSome result (λ joins. joins.0 ≡ joins.1) }
    ensures bound { IfSome result (λ joins. joins.0 ≤ first + second + third) }
{
    let front = K::join(first, second)?;
    let back = K::join(second, third)?;
    Some((K::join(front, third)?, K::join(first, back)?))
}
