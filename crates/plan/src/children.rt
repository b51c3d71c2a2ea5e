// What a record opens up to.
ghost use Rattle.std.specs.Prelude.{◌≡◌, ◌+◌, ◌<◌, ◌≤◌, length};
ghost use Rattle.costs.specs.Bag.{inserted};
ghost use Rattle.costs.specs.Order.{entry_of};
ghost use Rattle.plan.specs.Children.{Added, with_record};
ghost use Rattle.plan.specs.Parents.{aim, child, children};

use crate::book::Book;
use crate::join::joined;
use crate::parent::Parent;
use crate::record::Record;
use costs::entry::Entry;
use costs::kind::CostKind;
use costs::open_list::OpenList;

// A record that is not stored yet, with its estimates.
#[derive(Clone, Copy)]
pub struct Child {
    pub(crate) found: Record,
    pub(crate) leading: u32,
    pub(crate) second: u32,
}

impl<A: CostKind, B: CostKind> Parent<'_, A, B> {
    // The child by the passage, unless it is useless.
    // The total of the record counts as the best of its place, so that no passage may lead back there.
    #[tactic(auto, using(crate::proofs::Kids::none_back, crate::proofs::Kids::none_blocked, crate::proofs::Kids::some_child))]
    fn child_by(&self, passage: u16) -> Option<Child>
        requires inside { passage < length self.now.table.now.passages.items }
        ensures { result ≡ child self.now passage }
    {
        let along = self.table.link(passage).passage;
        let to = self.table.place(along.to);
        let second = joined::<B>(self.found.second, along.second);
        let estimate = joined::<B>(second, to.second);
        if along.to == self.found.place
            || self
                .table
                .blocks(along.to, second, self.ends.goal, estimate)
        {
            return None;
        }
        let leading = joined::<A>(self.found.leading, along.leading);
        Some(Child {
            found: Record {
                place: along.to,
                leading,
                second,
                parent: Some(self.number),
                passage,
            },
            leading: joined::<A>(leading, to.leading),
            second: estimate,
        })
    }

    // How many children of the record are not useless. Here and below the links are followed by a loop. One walk that takes a closure
    // would be no plainer: the closure below may be called only while there is room, and its clauses would say so of every call.
    pub(crate) fn count_children(&self) -> u32
        ensures { result ≡ length (children self.now) }
    {
        let mut count = 0;
        let mut at = self.table.place(self.found.place).first;
        while let Some(passage) = at {
            if self.child_by(passage).is_some() {
                count += 1;
            }
            at = self.table.link(passage).next;
        }
        count
    }

    // Stores the children of the record that are not useless, and puts their entries.
    pub(crate) fn add_children<Q: OpenList>(&self, book: &mut Book, list: &mut Q)
        requires records { length book.old.records.items + length (children self.now) ≤ 2048 }
        requires slots { length (Q.bag list.old) + length (children self.now) ≤ Q.slots list.old }
        ensures added { Added (aim self.now) (children self.now) book.old (Q.bag list.old) book.new (Q.bag list.new) }
        ensures slots { Q.slots list.new ≡ Q.slots list.old }
    {
        let mut at = self.table.place(self.found.place).first;
        while let Some(passage) = at {
            if let Some(child) = self.child_by(passage) {
                child.add_to(book, list);
            }
            at = self.table.link(passage).next;
        }
    }
}

impl Child {
    // The next record, and its entry.
    fn add_to<Q: OpenList>(self, book: &mut Book, list: &mut Q)
        requires room { length book.old.records.items < 2048 }
        requires slots { length (Q.bag list.old) < Q.slots list.old }
        ensures book { book.new ≡ with_record book.old self.found }
        ensures bag { Q.bag list.new ≡ inserted (entry_of self.leading self.second (length book.old.records.items)) (Q.bag list.old) }
        ensures slots { Q.slots list.new ≡ Q.slots list.old }
    {
        let entry = Entry {
            leading: self.leading,
            second: self.second,
            record: book.next_record(),
        };
        book.add(self.found);
        let _ = list.put(entry);
    }
}
