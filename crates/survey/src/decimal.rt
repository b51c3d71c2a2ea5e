// Numbers as decimal digits, with no leading zero.
ghost use Rattle.std.specs.Prelude.{◌≡◌, decimal};

use arrayvec::ArrayString;
use itoa::Buffer;

// The text is the digits of the value, the most significant first.
#[derive(Clone, Copy)]
pub struct Decimal {
    value: u32,
    text: ArrayString<10>,
    ghost spelled: { text.bytes ≡ decimal value },
}

impl From<u32> for Decimal {
    ghost from_gives = { λ value number. number.value ≡ value };

    fn from(value: u32) -> Decimal {
        let mut text = ArrayString::new();
        text.push_str(Buffer::new().format(value));
        Decimal { value, text }
    }
}

impl Decimal {
    pub fn as_bytes(&self) -> &[u8]
        ensures { result.now ≡ decimal self.now.value }
    {
        self.text.as_str().as_bytes()
    }
}
