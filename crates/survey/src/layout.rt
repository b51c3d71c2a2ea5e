// What the header of a survey says, and where its tables stand.
ghost use Rattle.std.specs.Prelude.{◌≡◌, ◌+◌, ◌*◌};

pub(crate) const HEADER: usize = 8;

const PAIR: usize = 4;

const PASSAGE: usize = 12;

#[derive(Clone, Copy, Debug, PartialEq, Eq)]
pub struct Layout {
    pub(crate) places: u16,
    pub(crate) passages: u16,
    pub(crate) leading: u8,
    pub(crate) second: u8,
}

impl Layout {
    // Where the passage begins.
    pub(crate) fn passage_at(self, number: u16) -> usize
        ensures { result ≡ 8 + 4 * self.places + 12 * number }
    {
        HEADER + PAIR * usize::from(self.places) + PASSAGE * usize::from(number)
    }

    // Where the passages end and the labels begin.
    pub(crate) fn tables_end(self) -> usize
        ensures { result ≡ 8 + 4 * self.places + 12 * self.passages }
    {
        self.passage_at(self.passages)
    }
}

// Where the offset and the length of a label stand.
pub(crate) fn pair_at(place: u16) -> usize
    ensures { result ≡ 8 + 4 * place }
{
    HEADER + PAIR * usize::from(place)
}
