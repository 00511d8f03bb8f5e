// A line of hex, and the CRC of the frame that it spells.
ghost use Rattle.std.specs.Prelude.{◌≡◌};
ghost use Rattle.crc_frames.specs.Line.{answer_of};

use std::io;
use std::io::Write;

// The characters of a line as far as it was read, in fixed memory: a length above 1024 says that it is too long.
#[derive(Drop)]
pub(crate) struct Line {
    pub(crate) text: [u8; 1024],
    pub(crate) len: usize,
}

impl Line {
    // Characters more, of which so many are kept as there is room for.
    fn add(&mut self, characters: &[u8]) {
        if let Some(room) = self.text.get_mut(self.len..) {
            let n = room.len().min(characters.len());
            room[..n].copy_from_slice(&characters[..n]);
        }
        self.len = self.len.saturating_add(characters.len());
    }

    // Prints the line's CRC, in one write.
    pub(crate) fn answer<W: Write>(&self, out: &mut W) -> io::Result<()> {
        let Some(crc) = self.text.get(..self.len).and_then(line_crc) else {
            return out.write_all(b"?\n");
        };
        let mut text = [b'\n'; 5];
        hex_pairs::encode(&crc.to_be_bytes(), &mut text);
        out.write_all(&text)
    }

    // Takes what was read, and answers each line that ends in it. (Character by character, with the count in memory, a long line took over
    // ten times as long.)
    pub(crate) fn feed<W: Write>(&mut self, out: &mut W, scrap: &[u8]) -> io::Result<()> {
        let mut parts = scrap.split(|character| *character == b'\n');
        if let Some(first) = parts.next() {
            self.add(first);
        }
        for part in parts {
            self.answer(out)?;
            self.len = 0;
            self.add(part);
        }
        Ok(())
    }
}

// The CRC of the frame that the line spells: `-` for no bytes, or one to 512 pairs of hex digits.
#[tactic(auto, using(crate::proofs::Laws::answers))]
pub fn line_crc(line: &[u8]) -> Option<u16>
    ensures { result ≡ answer_of line.now }
{
    if line == b"-".as_slice() {
        return Some(checks::crc(&[]));
    }
    let mut bytes = [0u8; 512];
    let n = hex_pairs::decode(line, &mut bytes);
    let frame = bytes.get(..n)?;
    if frame.is_empty() || 2 * n != line.len() {
        return None;
    }
    Some(checks::crc(frame))
}
