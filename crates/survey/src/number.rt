// Numbers in a file, their low byte first.
ghost use Rattle.std.specs.Prelude.{◌≡◌, ◌+◌, ◌≤◌, length};
ghost use Rattle.survey.specs.File.{two, four};

pub(crate) fn two_at(bytes: &[u8], at: usize) -> u16
    requires { at + 2 ≤ length bytes.now }
    ensures { result ≡ two bytes.now at }
{
    u16::from_le_bytes([bytes[at], bytes[at + 1]])
}

// Two numbers, one behind the other.
pub(crate) fn twos_at(bytes: &[u8], at: usize) -> (u16, u16)
    requires { at + 4 ≤ length bytes.now }
    ensures first { result.0 ≡ two bytes.now at }
    ensures second { result.1 ≡ two bytes.now (at + 2) }
{
    (two_at(bytes, at), two_at(bytes, at + 2))
}

pub(crate) fn four_at(bytes: &[u8], at: usize) -> u32
    requires { at + 4 ≤ length bytes.now }
    ensures { result ≡ four bytes.now at }
{
    u32::from_le_bytes([bytes[at], bytes[at + 1], bytes[at + 2], bytes[at + 3]])
}
