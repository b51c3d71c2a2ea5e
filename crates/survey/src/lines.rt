// The two lines that a repeater shows for a place: its label, and the minutes to it.
ghost use Rattle.std.specs.Prelude.{◌≡◌, ◌≤◌, ◌++◌, length, if◌then◌else◌, codes, decimal, nat_lt};
ghost use Rattle.survey.specs.Faults.{read_refusal};
ghost use Rattle.survey.specs.File.{places};
ghost use Rattle.survey.specs.Lines.{line_one, line_two, padded};
ghost use Rattle.survey.specs.Questions.{decided, told};
ghost use Rattle.survey.specs.Reading.{place_questions};
ghost use Rattle.survey.specs.View.{file};

use crate::decimal::Decimal;
use crate::fault::ReadFault;
use crate::view::Survey;

impl Survey<'_> {
    // Into lent lines, since the public promise is about what they hold, after a refused call too.
    pub fn lines(
        &self,
        place: u16,
        seconds: u32,
        first: &mut [u8; 16],
        second: &mut [u8; 16],
    ) -> Result<(), ReadFault>
        ensures cases { told read_refusal result ≡ decided (place_questions (file self.now) place) tt }
        ensures first { first.new ≡ (if nat_lt place (places (file self.now)) then line_one (file self.now) place else first.old) }
        ensures second { second.new ≡ (if nat_lt place (places (file self.now)) then line_two seconds else second.old) }
    {
        let label = self.label(place)?;
        *first = line_of(label);
        *second = minutes_line(seconds / 60);
        Ok(())
    }
}

// The text, filled with spaces.
fn line_of(text: &[u8]) -> [u8; 16]
    requires { length text.now ≤ 16 }
    ensures { result ≡ padded text.now }
{
    let mut line = [b' '; 16];
    line[..text.len()].copy_from_slice(text);
    line
}

fn minutes_line(minutes: u32) -> [u8; 16]
    ensures { result ≡ padded (decimal minutes ++ codes " min") }
{
    let number = Decimal::from(minutes);
    let digits = number.as_bytes();
    let len = digits.len();
    let mut line = line_of(digits);
    line[len..len + 4].copy_from_slice(b" min");
    line
}
