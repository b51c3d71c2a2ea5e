// Reading the table by the numbers of places and passages. Each call requires that the number is below the count: a type of numbers
// that are would hold the table, and be no plainer.
ghost use Rattle.std.specs.Prelude.{◌≡◌, ◌<◌, length};
ghost use Rattle.plan.specs.Views.{link_at, place_at};

use crate::place::Place;
use crate::table::{Link, Table};

impl Table {
    pub(crate) fn place_count(&self) -> u16
        ensures { result ≡ length self.now.places.items }
    {
        self.places.len() as u16
    }

    pub(crate) fn passage_count(&self) -> u16
        ensures { result ≡ length self.now.passages.items }
    {
        self.passages.len() as u16
    }

    pub(crate) fn place(&self, place: u16) -> Place
        requires { place < length self.now.places.items }
        ensures { result ≡ place_at self.now place }
    {
        self.places[usize::from(place)]
    }

    pub(crate) fn link(&self, passage: u16) -> Link
        requires { passage < length self.now.passages.items }
        ensures { result ≡ link_at self.now passage }
    {
        self.passages.as_slice()[usize::from(passage)]
    }
}
