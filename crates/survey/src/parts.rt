// What a checked survey holds.
ghost use Rattle.std.specs.Prelude.{◌≡◌, ◌<◌, IfSome, if◌then◌else◌, Some, None, Ok, nat_lt};
ghost use Rattle.survey.specs.Faults.{read_refusal};
ghost use Rattle.survey.specs.File.{byte, label_at, passage_in, passages, places};
ghost use Rattle.survey.specs.Questions.{decided, told_of};
ghost use Rattle.survey.specs.Reading.{checked, place_questions};
ghost use Rattle.survey.specs.View.{file, Lowest};

use crate::fault::ReadFault;
use crate::layout::{Layout, pair_at};
use crate::number::{four_at, twos_at};
use crate::passage::Passage;
use crate::view::Survey;

impl<'a> Survey<'a> {
    // The view of bytes that `Layout::check` accepted with this layout. It asks for that check since it makes none of
    // its own: so a caller who keeps the layout views the bytes again at no cost.
    pub fn new(bytes: &'a [u8], layout: Layout) -> Survey<'a>
        requires sound { checked bytes.now ≡ Ok layout }
        ensures { file result ≡ bytes.now }
    {
        Survey { bytes, layout }
    }

    pub fn places(&self) -> u16
        ensures { result ≡ places (file self.now) }
    {
        self.layout.places
    }

    pub fn passages(&self) -> u16
        ensures { result ≡ passages (file self.now) }
    {
        self.layout.passages
    }

    // The letters of the leading and of the second cost.
    pub fn letters(&self) -> (u8, u8)
        ensures leading { result.0 ≡ byte (file self.now) 6 }
        ensures second { result.1 ≡ byte (file self.now) 7 }
    {
        (self.layout.leading, self.layout.second)
    }

    pub fn passage(&self, number: u16) -> Option<Passage>
        ensures value { result ≡ (if nat_lt number (passages (file self.now)) then Some (passage_in (file self.now) number) else None) }
        ensures ends { IfSome result (λ p. (p.from < places (file self.now)) × (p.to < places (file self.now))) }
    {
        if number >= self.layout.passages {
            return None;
        }
        let at = self.layout.passage_at(number);
        let (from, to) = twos_at(self.bytes, at);
        Some(Passage {
            from,
            to,
            leading: four_at(self.bytes, at + 4),
            second: four_at(self.bytes, at + 8),
        })
    }

    // The part of the file that is the label of the place.
    pub fn label(&self, place: u16) -> Result<&'a [u8], ReadFault>
        ensures { told_of (λ x. x.now) read_refusal result ≡ decided (place_questions (file self.now) place) (label_at (file self.now) place) }
    {
        if place >= self.layout.places {
            return Err(ReadFault::NoPlace);
        }
        Ok(self.label_bytes(place))
    }

    // The lowest place with this label.
    pub fn find(&self, label: &[u8]) -> Option<u16>
        ensures { Lowest (file self.now) label.now result }
    {
        (0..self.layout.places).find(|&place| self.label_bytes(place) == label)
    }

    fn label_bytes(&self, place: u16) -> &'a [u8]
        requires { place < places (file self.now) }
        ensures { result.now ≡ label_at (file self.now) place }
    {
        let (offset, len) = twos_at(self.bytes, pair_at(place));
        let offset = usize::from(offset);
        &self.bytes[offset..offset + usize::from(len)]
    }
}
