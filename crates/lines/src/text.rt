ghost use Rattle.std.specs.Prelude.{[], ◌∷◌, ◌++◌, ◌+◌, ◌≤◌, ◌<◌, ◌≡◌, length};
ghost use Rattle.lines.specs.Text.{decimal, digit, shown};

// Room for every text: a number and the byte behind it take at most 11, so the first line takes at most 73, each of 4,096 entries 33, and
// the last line 70.
pub const TEXT_ROOM: usize = 135311;

// The value of each decimal place, the greatest first. A number of 32 bits has at most ten.
const UNITS: [u32; 10] = [
    1000000000, 100000000, 10000000, 1000000, 100000, 10000, 1000, 100, 10, 1,
];

// Lines as text. (No `String` or `Vec`: nothing is allocated.)
#[derive(Clone, Copy)]
pub struct Text {
    // The text stands at the front; zeros are behind it.
    pub bytes: [u8; TEXT_ROOM],
    // How many bytes it has.
    pub length: usize,
}

// Whether a number's digit at a place is shown. The places in front of its first digit are not.
fn is_shown(n: u32, unit: u32) -> bool
    ensures { result ≡ shown n unit }
{
    unit <= n || unit == 1
}

impl Text {
    ghost use Rattle.lines.specs.Appends.{Appends};

    // Puts a byte behind the text.
    fn put_byte(&mut self, byte: u8)
        requires { self.old.length < 135311 }
        ensures { Appends 1 (byte ∷ []) self.old self.new }
    {
        self.bytes[self.length] = byte;
        self.length += 1;
    }

    // Puts bytes as they are.
    pub(crate) fn put_bytes(&mut self, bytes: &[u8])
        requires { self.old.length + length bytes.now ≤ 135311 }
        ensures { Appends (length bytes.now) bytes.now self.old self.new }
    {
        number::put_bytes(&mut self.bytes, self.length, bytes);
        self.length += bytes.len();
    }

    // Puts the digit of a number at one place, if it is shown.
    fn put_digit(&mut self, n: u32, unit: u32)
        requires { (self.old.length < 135311) × (0 < unit) }
        ensures { Appends 1 (digit n unit) self.old self.new }
    {
        if is_shown(n, unit) {
            self.put_byte(b'0' + (n / unit % 10) as u8);
        }
    }

    // Puts a number in base ten, and a byte behind it.
    pub(crate) fn put_number(&mut self, n: u32, behind: u8)
        requires { self.old.length + 11 ≤ 135311 }
        ensures { Appends 11 (decimal n ++ (behind ∷ [])) self.old self.new }
    {
        for unit in UNITS {
            self.put_digit(n, unit);
        }
        self.put_byte(behind);
    }
}
