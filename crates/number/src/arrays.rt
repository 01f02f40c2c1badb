ghost use Rattle.std.specs.Prelude.{◌≡◌};
ghost use Rattle.number.specs.Number.{bytes_put, word_bytes};

// Puts bytes into those from a place on; none, if they would reach past the end. (No `copy_from_slice`: by it the static library would need `memmove` of its
// callers.)
pub fn put_bytes(buffer: &mut [u8], at: usize, bytes: &[u8])
    ensures { buffer.new ≡ bytes_put at bytes.now buffer.old }
{
    if let Some(end) = at.checked_add(bytes.len())
        && end <= buffer.len()
    {
        for (i, byte) in bytes.iter().enumerate() {
            buffer[at + i] = *byte;
        }
    }
}

// Puts numbers, four bytes each and one behind the other, into the bytes from a place on; none, if they would reach past the end.
pub fn put_words(buffer: &mut [u8], at: usize, numbers: &[u32])
    ensures { buffer.new ≡ bytes_put at (word_bytes numbers.now) buffer.old }
{
    if let Some(end) = at.checked_add(4 * numbers.len())
        && end <= buffer.len()
    {
        for (i, number) in numbers.iter().enumerate() {
            let place = at + 4 * i;
            buffer[place..place + 4].copy_from_slice(&number.to_le_bytes());
        }
    }
}
