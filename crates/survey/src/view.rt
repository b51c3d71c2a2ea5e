// A checked survey: a view of the caller's bytes.
ghost use Rattle.std.specs.Prelude.{◌≡◌, false, is_some};
ghost use Rattle.survey.specs.File.{layout_of};
ghost use Rattle.survey.specs.Questions.{first_no};
ghost use Rattle.survey.specs.Reading.{survey_questions};

use crate::layout::Layout;

// The bytes passed every question of the reader, and `layout` is what their header says.
#[derive(Clone, Copy)]
pub struct Survey<'a> {
    pub(crate) bytes: &'a [u8],
    pub(crate) layout: Layout,
    ghost accepted: { is_some (first_no (survey_questions bytes.now)) ≡ false },
    ghost header: { layout ≡ layout_of bytes.now },
}
