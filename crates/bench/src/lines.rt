// The input, a line at a time.
//
// A `Reader` keeps what was read, the scrap; the text of the line is the caller's.
ghost use Rattle.std.specs.Prelude.{◌≤◌};

use std::io;
use std::io::Read;

// The characters of the longest line, 2700, and one more, by which a longer line is known: past that its characters are left out.
pub(crate) type Text = [u8; 2701];

// What a call of `next` comes to: a line, or what there is of one at the input's end.
pub(crate) enum Line<'a> {
    Whole(&'a [u8]),
    Last(&'a [u8]),
}

// The characters of the scrap from `at` up to `end` wait.
#[derive(Drop)]
pub(crate) struct Reader {
    scrap: [u8; 4096],
    at: usize,
    end: usize,
    ghost waiting: { (at ≤ end) × (end ≤ 4096) },
}

// Characters more of a line that has `len`, so many as there is room for. In fixed memory, so its length stands beside it.
fn add(text: &mut Text, len: usize, characters: &[u8]) -> usize
    requires { len ≤ 2701 }
    ensures { result ≤ 2701 }
{
    let room = &mut text[len..];
    let n = room.len().min(characters.len());
    room[..n].copy_from_slice(&characters[..n]);
    len + n
}

impl Reader {
    // Nothing is read yet.
    pub(crate) fn new() -> Self {
        Reader {
            scrap: [0; 4096],
            at: 0,
            end: 0,
        }
    }

    // Reads lines up to the next, and hands over its characters.
    pub(crate) fn next<'a, R: Read>(
        &mut self,
        input: &mut R,
        text: &'a mut Text,
    ) -> io::Result<Line<'a>> {
        let mut len = 0;
        // no `loop`: one that may not end needs the handle Wait, which this repository has none of
        for _ in 0..u64::MAX {
            let waiting = &self.scrap[self.at..self.end];
            if let Some(n) = waiting.iter().position(|character| *character == b'\n') {
                len = add(text, len, &waiting[..n]);
                self.at += n + 1;
                return Ok(Line::Whole(&text[..len]));
            }
            len = add(text, len, waiting);
            self.at = 0;
            self.end = 0;
            self.end = input.read(&mut self.scrap)?;
            if self.end == 0 {
                break;
            }
        }
        Ok(Line::Last(&text[..len]))
    }
}
