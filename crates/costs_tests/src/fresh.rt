// The first call on two fresh lists of different makes: the same answer, by proof.
ghost use Rattle.std.specs.Prelude.{◌≡◌, IfOk};

use costs::arrival_list::ArrivalList;
use costs::both::call_on_both;
use costs::call::{Answer, Call};
use costs::heap_list::HeapList;
use std::alloc::{AllocError, Global};

pub fn first_answers(heap: Global, slots: usize, call: Call) -> Result<(Answer, Answer), AllocError>
    ensures { IfOk result (λ answers. answers.0 ≡ answers.1) }
{
    let mut tree = HeapList::new(heap, slots)?;
    let mut row = ArrivalList::new(heap, slots)?;
    Ok(call_on_both(&mut tree, &mut row, call))
}
