ghost use Rattle.std.specs.Prelude.{◌≡◌};
ghost use Rattle.number.specs.Number.{word_at, word_put};

// The number that the four bytes from a place on are; 0, if they are not all there. (`get` and `first_chunk` take five instructions more.)
pub fn word_at(bytes: &[u8], at: usize) -> u32
    ensures { result ≡ word_at bytes.now at }
{
    if let Some(end) = at.checked_add(4)
        && end <= bytes.len()
    {
        u32::from_le_bytes([bytes[at], bytes[at + 1], bytes[at + 2], bytes[at + 3]])
    } else {
        0
    }
}

// Puts a number into the four bytes from a place on; into none, if they are not all there.
pub fn put_word(buffer: &mut [u8], at: usize, number: u32)
    ensures { buffer.new ≡ word_put at number buffer.old }
{
    if let Some(end) = at.checked_add(4)
        && end <= buffer.len()
    {
        buffer[at..end].copy_from_slice(&number.to_le_bytes());
    }
}
