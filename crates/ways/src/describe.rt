// The description of a hotel, line by line.
ghost use Rattle.std.specs.Prelude.{◌≡◌};
ghost use Rattle.survey.specs.View.{file};
ghost use Rattle.ways.specs.Description.{count_lines, description_of, place_line, place_lines, repeater_lines, label_shown};
ghost use Rattle.ways.specs.Text.{Adds};

use crate::text::{Part, add_all};
use std::alloc::AllocError;
use survey::view::Survey;

// What is described: a hotel, with a start and a goal.
#[derive(Clone, Copy)]
pub struct Description<'a> {
    pub survey: Survey<'a>,
    pub start: u16,
    pub goal: u16,
}

impl<'a> Description<'a> {
    pub fn add_to(self, text: &mut Vec<u8>) -> Result<(), AllocError>
        ensures { Adds text.old text.new (description_of (file self.entry.survey) self.entry.start self.entry.goal) result }
    {
        self.add_counts(text)?;
        self.add_places(text)?;
        self.add_place(text, b"start ", self.start)?;
        self.add_place(text, b"goal ", self.goal)?;
        self.add_repeater(text)
    }

    fn add_counts(self, text: &mut Vec<u8>) -> Result<(), AllocError>
        ensures { Adds text.old text.new (count_lines (file self.entry.survey)) result }
    {
        let (leading, second) = self.survey.letters();
        let parts = [
            Part::Text(b"places "),
            Part::Number(u32::from(self.survey.places())),
            Part::Text(b"\n"),
            Part::Text(b"passages "),
            Part::Number(u32::from(self.survey.passages())),
            Part::Text(b"\n"),
            Part::Text(b"letters "),
            Part::Letter(leading),
            Part::Text(b" "),
            Part::Letter(second),
            Part::Text(b"\n"),
        ];
        add_all(text, &parts)
    }

    fn add_places(self, text: &mut Vec<u8>) -> Result<(), AllocError>
        ensures { Adds text.old text.new (place_lines (file self.entry.survey)) result }
    {
        for place in 0..self.survey.places() {
            self.add_place(text, b"place ", place)?;
        }
        Ok(())
    }

    fn add_place(self, text: &mut Vec<u8>, word: &'a [u8], place: u16) -> Result<(), AllocError>
        ensures { Adds text.old text.new (place_line word.now (file self.entry.survey) place) result }
    {
        let parts = [
            Part::Text(word),
            Part::Number(u32::from(place)),
            Part::Text(b" "),
            Part::Text(self.shown_label(place)),
            Part::Text(b"\n"),
        ];
        add_all(text, &parts)
    }

    // What a repeater shows for the goal, 0 seconds away, or nothing where there is no such place.
    fn add_repeater(self, text: &mut Vec<u8>) -> Result<(), AllocError>
        ensures { Adds text.old text.new (repeater_lines (file self.entry.survey) self.entry.goal) result }
    {
        let mut first = [b' '; 16];
        let mut second = [b' '; 16];
        if self
            .survey
            .lines(self.goal, 0, &mut first, &mut second)
            .is_err()
        {
            return Ok(());
        }
        let parts = [
            Part::Text(b"|"),
            Part::Text(&first),
            Part::Text(b"|"),
            Part::Text(b"\n"),
            Part::Text(b"|"),
            Part::Text(&second),
            Part::Text(b"|"),
            Part::Text(b"\n"),
        ];
        add_all(text, &parts)
    }

    fn shown_label(self, place: u16) -> &'a [u8]
        ensures { result.now ≡ label_shown (file self.entry.survey) place }
    {
        let label = self.survey.label(place);
        label.unwrap_or(b"no such place")
    }
}
