// The job: from the bytes of an input to the text about it.
ghost use Rattle.ways.specs.Job.{Answers};

use crate::describe::Description;
use crate::fault::JobFault;
use survey::view::Survey;

// Adds the description of the hotel to the text, which has no less room afterwards.
pub fn describe(input: &[u8], mut text: Vec<u8>) -> Result<Vec<u8>, JobFault>
    ensures { Answers input.now text result }
{
    let [s0, s1, g0, g1, bytes @ ..] = input else {
        return Err(JobFault::Short);
    };
    let description = Description {
        survey: Survey::try_from(bytes)?,
        start: u16::from_le_bytes([*s0, *s1]),
        goal: u16::from_le_bytes([*g0, *g1]),
    };
    description.add_to(&mut text)?;
    Ok(text)
}
