// What a cost kind is: its letters, its values, the rule that joins two values, its ceilings.
ghost use Rattle.std.specs.Prelude.{◌≡◌, ◌+◌, nat_le};
ghost use Rattle.costs.specs.Kinds.{Kind, Lawful, join_limit, limited};

// The greatest ordinary sum of two values that the program joins.
pub const JOIN_LIMIT: u32 = 2_000_000_000;

pub trait CostKind {
    ghost kind: { Kind };

    // Which letters carry the kind.
    fn carries(letter: u8) -> bool
        ensures { result ≡ kind.is_letter letter };

    // Which numbers are values.
    fn is_value(number: u32) -> bool
        ensures { result ≡ kind.is_value number };

    // None if one of them is no value, or if their ordinary sum passes the limit.
    fn join(first: u32, second: u32) -> Option<u32>
        ensures { result ≡ limited kind first second };

    fn passage_ceiling() -> u32
        ensures { result ≡ kind.passage_ceiling };

    fn forecast_ceiling() -> u32
        ensures { result ≡ kind.forecast_ceiling };

    // Whether a < b always gives a ⊕ c < b ⊕ c.
    fn cancels() -> bool
        ensures { result ≡ kind.cancels };

    ghost lawful: { Lawful kind };
}

// Whether the ordinary sum stays within the limit.
pub fn within_limit(first: u32, second: u32) -> bool
    ensures { result ≡ nat_le (first + second) join_limit }
{
    first
        .checked_add(second)
        .is_some_and(|sum| sum <= JOIN_LIMIT)
}
