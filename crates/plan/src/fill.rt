// Filling the table from a survey.
ghost use Rattle.std.specs.Prelude.{◌≡◌, ◌<◌, length};
ghost use Rattle.survey.specs.View.{file};
ghost use Rattle.plan.specs.Views.{Copied, Filled, Linked, Unlinked, place_from, with_first};

use crate::place::Place;
use crate::table::{Link, Table};
use survey::view::Survey;

impl Table {
    #[tactic(auto, using(crate::proofs::Loading::many_copied, crate::proofs::Loading::unlinked_copied, survey::proofs::Formed::well_formed))]
    pub(crate) fn fill(&mut self, survey: &Survey)
        ensures { Filled (file survey.now) self.new }
    {
        self.copy(survey);
        self.link_all();
    }

    // The places, without a best or a forecast, and the passages in file order, not linked yet.
    #[tactic(auto, using(crate::proofs::Loading::many_pushed))]
    fn copy(&mut self, survey: &Survey)
        ensures { Copied (file survey.now) self.new }
    {
        self.places.clear();
        for _ in 0..survey.places() {
            self.places.push(Place::default());
        }
        self.passages.clear();
        for number in 0..survey.passages() {
            self.passages.push(Link {
                passage: survey.passage(number).unwrap(),
                next: None,
            });
        }
    }

    // From the last to the first, so that each is put in front of those behind it that leave the same place.
    #[tactic(auto, using(crate::proofs::Loading::place_there))]
    fn link_all(&mut self)
        requires { Unlinked self.old }
        ensures { Linked self.old self.new }
    {
        for number in (0..self.passage_count()).rev() {
            self.put_first(number);
        }
    }

    fn put_first(&mut self, number: u16)
        requires passage { number < length self.old.passages.items }
        requires place { place_from self.old number < length self.old.places.items }
        ensures { self.new ≡ with_first self.old number }
    {
        let link = self.link(number);
        let next = self.places[usize::from(link.passage.from)]
            .first
            .replace(number);
        self.passages
            .set(usize::from(number), Link { next, ..link });
    }
}
