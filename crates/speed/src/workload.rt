// The workload, and the number of rounds, as text.
ghost use Rattle.std.specs.Prelude.{◌≤◌, length, IfSome};

use std::str;

// The number that up to nine decimal digits spell.
pub(crate) fn number_of(word: &[u8]) -> Option<u64> {
    if 9 < word.len() || !word.iter().all(|character| character.is_ascii_digit()) {
        return None;
    }
    str::from_utf8(word).ok()?.parse().ok()
}

// Puts the bytes that each line spells one after another into `work`, and how many each has into `frames`, both in fixed memory. Tells how many bytes there are, unless a line is no
// message in hex, they are too many, or there are none.
pub(crate) fn read_lines(
    text: &[u8],
    work: &mut [u8; 65536],
    frames: &mut [usize; 4096],
) -> Option<usize>
    ensures { IfSome result (λ n. n ≤ 65536) }
{
    let mut total = 0;
    let lines = text.strip_suffix(b"\n").unwrap_or(text);
    for (k, line) in lines.split(|character| *character == b'\n').enumerate() {
        let n = read_line(line, &mut work[total..])?;
        *frames.get_mut(k)? = n;
        total += n;
        if total == 0 {
            return None;
        }
    }
    Some(total)
}

// Puts the bytes of one line at the start of `work`, and tells how many they are, where it is a message in hex and there is room.
fn read_line(line: &[u8], work: &mut [u8]) -> Option<usize>
    ensures { IfSome result (λ n. n ≤ length work.old) }
{
    let n = hex_pairs::decode(line, work);
    (line.len() / 2 == n && n <= work.len()).then_some(n)
}
