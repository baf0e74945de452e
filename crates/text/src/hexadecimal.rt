// A line of hexadecimal, either letter case, as bytes.
ghost use Rattle.std.specs.Prelude.{◌≡◌, ◌*◌, ◌%◌, ◌<◌, ◌≤◌, length, MatchOption};
ghost use Rattle.text.specs.Hexadecimal.{hex_value, HexRead};

// The value of a digit, if the character is one.
fn digit(c: u8) -> Option<u8>
    ensures { MatchOption result (16 ≤ hex_value c) (λ v. (v ≡ hex_value c) × (v < 16)) }
{
    match c {
        b'0'..=b'9' => Some(c - b'0'),
        b'A'..=b'F' => Some(c - b'A' + 10),
        b'a'..=b'f' => Some(c - b'a' + 10),
        _ => None,
    }
}

// Whether every character of the line is a digit. The bytes that its pairs of digits write go into the first places of the frame, up to the
// first pair that is none; the places after them are not touched. A bool, since `HexRead` (specs) says it of one.
pub fn bytes(line: &[u8], frame: &mut [u8]) -> bool
    requires { (length line.now % 2 ≡ 0) × (length line.now ≤ 2 * length frame.old) }
    ensures { HexRead line.now frame.old frame.new result }
{
    for i in 0..line.len() / 2 {
        let Some(high) = digit(line[2 * i]) else {
            return false;
        };
        let Some(low) = digit(line[2 * i + 1]) else {
            return false;
        };
        frame[i] = high * 16 + low;
    }
    true
}
