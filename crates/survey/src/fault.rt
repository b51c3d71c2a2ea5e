// Why the reader refuses.
ghost use Rattle.std.specs.Prelude.{◌≡◌};
ghost use Rattle.survey.specs.Faults.{read_refusal};

use crate::refusal::Refusal;

#[derive(Clone, Copy, Debug, PartialEq, Eq)]
pub enum ReadFault {
    // Fewer bytes than a header.
    Short,
    // The first two bytes are not those of a survey.
    Mark,
    // No place, too many places or too many passages.
    Counts,
    // The tables do not fit into the file.
    Tables,
    // A passage begins or ends at no place.
    Ends { passage: u16 },
    // A label does not follow the one before it, has a wrong length or passes the end of the file.
    Label { place: u16 },
    // A label holds a byte that is no printable character.
    Characters { place: u16 },
    // Bytes stand behind the last label.
    Trailing,
    // No place has this number.
    NoPlace,
}

// The numbers are those that are printed.
impl From<ReadFault> for Refusal {
    ghost from_gives = { λ fault refusal. refusal ≡ read_refusal fault };

    fn from(fault: ReadFault) -> Refusal {
        let (number, spot) = match fault {
            ReadFault::Short => (1, 0),
            ReadFault::Mark => (2, 0),
            ReadFault::Counts => (3, 0),
            ReadFault::Tables => (4, 0),
            ReadFault::Ends { passage } => (5, passage),
            ReadFault::Label { place } => (6, place),
            ReadFault::Characters { place } => (7, place),
            ReadFault::Trailing => (8, 0),
            ReadFault::NoPlace => (24, 0),
        };
        Refusal {
            number,
            spot: u32::from(spot),
        }
    }
}
