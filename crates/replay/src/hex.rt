// Bytes read from digits in hexadecimal.
ghost use Rattle.std.specs.Prelude.{◌≤◌, ◌≡◌, length, take};

// Reads digits into a text and returns its length. What the text has no room for is read as none, and shows: the answer repeats the text.
pub fn read_hex(digits: &[u8], text: &mut [u8]) -> usize
    ensures { (result ≤ length text.new) × (result ≡ length (take result text.new)) }
{
    let n = digits.len() / 2;
    if text.len() < n {
        return 0;
    }
    frame::unhex_into(digits, text);
    n
}
