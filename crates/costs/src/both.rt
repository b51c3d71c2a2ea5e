// The same call on two open lists of any makes.
ghost use Rattle.std.specs.Prelude.{◌≡◌};
ghost use Rattle.costs.specs.Calls.{Alike, answer_of, bag_after};

use crate::call::{Answer, Call};
use crate::open_list::OpenList;

pub fn call_on<L: OpenList>(list: &mut L, call: Call) -> Answer
    ensures value { result ≡ answer_of call (L.slots list.old) (L.bag list.old) }
    ensures bag { L.bag list.new ≡ bag_after call (L.slots list.old) (L.bag list.old) }
    ensures slots { L.slots list.new ≡ L.slots list.old }
{
    match call {
        Call::Count => Answer::Number(list.count()),
        Call::Slots => Answer::Number(list.slots()),
        Call::Look => Answer::Least(list.look()),
        Call::Put(entry) => Answer::Put(list.put(entry)),
        Call::Take => Answer::Least(list.take()),
        Call::Clear => {
            list.clear();
            Answer::Cleared
        }
    }
}

// Lists that wait for the same answer the same, and wait for the same again.
pub fn call_on_both<P: OpenList, Q: OpenList>(p: &mut P, q: &mut Q, call: Call) -> (Answer, Answer)
    ensures value { Alike P.OpenList Q.OpenList p.old q.old → result.0 ≡ result.1 }
    ensures alike { Alike P.OpenList Q.OpenList p.old q.old → Alike P.OpenList Q.OpenList p.new q.new }
{
    (call_on(p, call), call_on(q, call))
}
