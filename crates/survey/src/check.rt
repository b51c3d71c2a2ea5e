// The questions that a file is asked before it counts as a survey.
ghost use Rattle.std.specs.Prelude.{◌≡◌, ◌+◌, ◌*◌, ◌<◌, ◌≤◌, false, length, is_some, OnOk};
ghost use Rattle.survey.specs.Faults.{read_refusal};
ghost use Rattle.survey.specs.File.{layout_of, label_end, label_start, passages, places, end_of_tables};
ghost use Rattle.survey.specs.Questions.{decided, each, first_no, told};
ghost use Rattle.survey.specs.Reading.{checked, header_questions, label_questions, passage_questions, each_printable, survey_questions, WellFormed};
ghost use Rattle.survey.specs.View.{Reads};

use crate::fault::ReadFault;
use crate::layout::{HEADER, Layout, pair_at};
use crate::number::twos_at;
use crate::view::Survey;

const MOST_PLACES: u16 = 256;

const MOST_PASSAGES: u16 = 1024;

const LONGEST_LABEL: usize = 16;

impl<'a> TryFrom<&'a [u8]> for Survey<'a> {
    type Error = ReadFault;

    ghost try_from_gives = { λ bytes result. Reads bytes.now result };

    fn try_from(bytes: &'a [u8]) -> Result<Survey<'a>, ReadFault> {
        let layout = check_header(bytes)?;
        Tables { bytes, layout }.check_rest()?;
        Ok(Survey { bytes, layout })
    }
}

impl Layout {
    // What the header says, where the whole file is a survey.
    pub fn check(bytes: &[u8]) -> Result<Layout, ReadFault>
        ensures cases { told read_refusal result ≡ checked bytes.now }
        ensures formed { OnOk result (WellFormed bytes.now) }
    {
        Ok(Survey::try_from(bytes)?.layout)
    }
}

fn check_header(bytes: &[u8]) -> Result<Layout, ReadFault>
    ensures { told read_refusal result ≡ decided (header_questions bytes.now) (layout_of bytes.now) }
{
    let [first, edition, p0, p1, e0, e1, leading, second, rest @ ..] = bytes else {
        return Err(ReadFault::Short);
    };
    if *first != 0x46 || *edition != 0x01 {
        return Err(ReadFault::Mark);
    }
    let layout = Layout {
        places: u16::from_le_bytes([*p0, *p1]),
        passages: u16::from_le_bytes([*e0, *e1]),
        leading: *leading,
        second: *second,
    };
    if !(1..=MOST_PLACES).contains(&layout.places) || layout.passages > MOST_PASSAGES {
        return Err(ReadFault::Counts);
    }
    if rest.len() < layout.tables_end() - HEADER {
        return Err(ReadFault::Tables);
    }
    Ok(layout)
}

// The bytes of a file whose header was accepted, with what it says: the tables end within the file. A `Survey` has the same
// parts, and more is known of it. One made of a `Tables` would be no plainer: its calls, and the definitions that name its bytes
// and layout, would read them by `tables`.
#[derive(Clone, Copy)]
struct Tables<'a> {
    bytes: &'a [u8],
    layout: Layout,
    ghost accepted: { is_some (first_no (header_questions bytes.now)) ≡ false },
    ghost header: { layout ≡ layout_of bytes.now },
    ghost within: { end_of_tables bytes.now ≤ length bytes.now },
}

impl Tables<'_> {
    // What follows the header.
    fn check_rest(&self) -> Result<(), ReadFault>
        ensures cases { told read_refusal result ≡ decided (survey_questions self.now.bytes.now) tt }
        ensures formed { OnOk result (WellFormed self.now.bytes.now) }
    {
        self.check_passages()?;
        if self.check_labels()? != self.bytes.len() {
            return Err(ReadFault::Trailing);
        }
        Ok(())
    }

    fn check_passages(&self) -> Result<(), ReadFault>
        ensures { told read_refusal result ≡ decided (each (passages self.now.bytes.now) (passage_questions self.now.bytes.now)) tt }
    {
        for number in 0..self.layout.passages {
            self.check_passage(number)?;
        }
        Ok(())
    }

    fn check_passage(&self, number: u16) -> Result<(), ReadFault>
        requires { number < passages self.now.bytes.now }
        ensures { told read_refusal result ≡ decided (passage_questions self.now.bytes.now number) tt }
    {
        let (from, to) = twos_at(self.bytes, self.layout.passage_at(number));
        if from >= self.layout.places || to >= self.layout.places {
            return Err(ReadFault::Ends { passage: number });
        }
        Ok(())
    }

    // Where the last label ends.
    fn check_labels(&self) -> Result<usize, ReadFault>
        ensures { told read_refusal result ≡ decided (each (places self.now.bytes.now) (label_questions self.now.bytes.now)) (label_start self.now.bytes.now (places self.now.bytes.now)) }
    {
        let mut end = self.layout.tables_end();
        for place in 0..self.layout.places {
            end = self.check_label(end, place)?;
        }
        Ok(end)
    }

    // Where the label ends, which has to begin at `start`.
    fn check_label(&self, start: usize, place: u16) -> Result<usize, ReadFault>
        requires before { start ≡ label_start self.now.bytes.now place }
        requires within { place < places self.now.bytes.now }
        ensures { told read_refusal result ≡ decided (label_questions self.now.bytes.now place) (label_end self.now.bytes.now place) }
    {
        let (offset, len) = twos_at(self.bytes, pair_at(place));
        let (offset, len) = (usize::from(offset), usize::from(len));
        let end = offset + len;
        if offset != start || !(1..=LONGEST_LABEL).contains(&len) || end > self.bytes.len() {
            return Err(ReadFault::Label { place });
        }
        if !all_printable(&self.bytes[offset..end]) {
            return Err(ReadFault::Characters { place });
        }
        Ok(end)
    }
}

fn all_printable(text: &[u8]) -> bool
    ensures { result ≡ each_printable text.now }
{
    text.iter().all(|byte| (0x20..=0x7E).contains(byte))
}
