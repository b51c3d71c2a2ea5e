// What a call says when it is refused: as numbers, since they are what is printed. Each is made of an error enum, at one place.

// The number of the question that was answered "no", and the spot: the passage, place or length that
// the question is about, or 0.
#[derive(Clone, Copy, Debug, PartialEq, Eq)]
pub struct Refusal {
    pub number: u32,
    pub spot: u32,
}
