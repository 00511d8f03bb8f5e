// The line of a message that was taken.
ghost use Rattle.std.specs.Prelude.{◌≡◌, ◌+◌, ◌*◌, ◌≤◌, length};
ghost use Rattle.base.specs.Buffers.{front};
ghost use Rattle.session_loop.specs.Line.{line_text};

// The longest line: that of an ASCII reply of 151 bytes, which is the longest there is.
pub(crate) const LINE_MOST: usize = 306;

// Puts the line at the start of `text`, and tells its length: the outcome, a space, the reply in hex or `-`, a line's end. It is no `write!`: into a slice std's says
// nothing of the bytes written, which `line_text` promises.
pub(crate) fn write_line(number: u32, reply: &[u8], text: &mut [u8]) -> usize
    requires { 2 * length reply.now + 4 ≤ length text.old }
    ensures count { result ≡ length (line_text number reply.now) }
    ensures lent { text.new ≡ front (line_text number reply.now) text.old }
{
    text[0] = b'0' + (number % 10) as u8;
    text[1] = b' ';
    if reply.is_empty() {
        text[2] = b'-';
        text[3] = b'\n';
        return 4;
    }
    hex_pairs::encode(reply, &mut text[2..]);
    let end = 2 + 2 * reply.len();
    text[end] = b'\n';
    end + 1
}
