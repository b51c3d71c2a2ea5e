// The six calls of an open list, and their answers, as values: a closure is called on lists of one type, and a `Call` on lists
// of two, so that two closures for each call would be no plainer.
use crate::entry::Entry;
use crate::full::Full;

#[derive(Clone, Copy)]
pub enum Call {
    Count,
    Slots,
    Look,
    Put(Entry),
    Take,
    Clear,
}

#[derive(Clone, Copy, Debug, PartialEq, Eq)]
pub enum Answer {
    Number(usize),
    Least(Option<Entry>),
    Put(Result<(), Full>),
    Cleared,
}
