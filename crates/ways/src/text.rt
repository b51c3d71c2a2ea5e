// Text that is written part by part.
ghost use Rattle.std.specs.Prelude.{◌≡◌};
ghost use Rattle.ways.specs.Text.{Adds, letter_text, written, written_all};

use std::alloc::AllocError;
use survey::decimal::Decimal;

// A part of a text. Parts are not written by `write!`: std says nothing of an error of `write!`, nor of the room that it
// leaves, so that a job could not promise what it does: that memory is wanting only where its text has no room.
#[derive(Clone, Copy)]
pub enum Part<'a> {
    Text(&'a [u8]),
    Number(u32),
    // As itself where it can be seen, else as `#` and its number.
    Letter(u8),
}

// Adds the parts, in their order, to the text.
pub fn add_all(text: &mut Vec<u8>, parts: &[Part]) -> Result<(), AllocError>
    ensures { Adds text.old text.new (written_all parts.now) result }
{
    for part in parts {
        part.add_to(text)?;
    }
    Ok(())
}

impl Part<'_> {
    fn add_to(&self, text: &mut Vec<u8>) -> Result<(), AllocError>
        ensures { Adds text.old text.new (written self.now) result }
    {
        match *self {
            Part::Text(bytes) => text.extend_from_slice(bytes),
            Part::Number(n) => text.extend_from_slice(Decimal::from(n).as_bytes()),
            Part::Letter(letter) => add_letter(text, letter),
        }
    }
}

fn add_letter(text: &mut Vec<u8>, letter: u8) -> Result<(), AllocError>
    ensures { Adds text.old text.new (letter_text letter) result }
{
    if letter.is_ascii_graphic() {
        return text.extend_from_slice(&[letter]);
    }
    text.extend_from_slice(b"#")?;
    text.extend_from_slice(Decimal::from(u32::from(letter)).as_bytes())
}
