// The book of a search: its records, its choices and its counts.
ghost use Rattle.std.specs.Prelude.{◌≡◌, ◌<◌, length};
ghost use Rattle.plan.specs.Children.{with_record};
ghost use Rattle.plan.specs.Requests.{begun_book};
ghost use Rattle.plan.specs.Views.{record_in, with_choice};

use crate::fixed_vec::FixedVec;
use crate::record::Record;

#[derive(Default, Drop)]
pub struct Book {
    pub(crate) records: FixedVec<Record, 2048>,
    // The record of each choice.
    pub(crate) choices: FixedVec<u32, 2048>,
    pub(crate) opened: u32,
    pub(crate) dropped: u32,
}

impl Book {
    // Leaves the first record alone, and no choice.
    pub(crate) fn begin(&mut self, start: u16)
        ensures { self.new ≡ begun_book start }
    {
        self.records.clear();
        self.records.push(Record {
            place: start,
            ..Record::default()
        });
        self.choices.clear();
        self.opened = 0;
        self.dropped = 0;
    }

    pub(crate) fn record(&self, number: u32) -> Record
        requires { number < length self.now.records.items }
        ensures { result ≡ record_in self.now number }
    {
        self.records.as_slice()[number as usize]
    }

    // The number that the next record gets.
    pub(crate) fn next_record(&self) -> u32
        ensures { result ≡ length self.now.records.items }
    {
        self.records.len() as u32
    }

    pub(crate) fn add(&mut self, found: Record)
        requires { length self.old.records.items < 2048 }
        ensures { self.new ≡ with_record self.old found }
    {
        self.records.push(found);
    }

    pub(crate) fn choose(&mut self, number: u32)
        requires { length self.old.choices.items < 2048 }
        ensures { self.new ≡ with_choice self.old number }
    {
        self.choices.push(number);
    }
}
