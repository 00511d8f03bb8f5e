// The master side of the line: what every writer of a request comes to, and putting a made message into the caller's buffer.
// What is sent, and in which order it is refused, stands in specs/, once for all protocols.
#![tactic(auto)]

ghost use Rattle.std.specs.Prelude.{◌≡◌, true, length};
ghost use Rattle.base.specs.Buffers.{front};
ghost use Rattle.master.specs.Sent.{sent_number, sent_of, bytes_sent};

// Why a request is not written.
#[derive(Clone, Copy, Debug, PartialEq, Eq)]
pub enum Unsent {
    // 13: request cannot be said
    CannotBeSaid,
    // 10: buffer too short
    ShortBuffer,
}

// What writing a request comes to: so many bytes of message stand at the start of the buffer, which is 0, or why none do.
pub type Sent = Result<usize, Unsent>;

// Document 01's number.
pub fn number_of(sent: Sent) -> u32
    ensures { result ≡ sent_number sent }
{
    match sent {
        Ok(_) => 0,
        Err(Unsent::CannotBeSaid) => 13,
        Err(Unsent::ShortBuffer) => 10,
    }
}

// Puts a message that can be said at the start of `out`, or nothing where `out` has no room for all of it.
pub fn send(message: &[u8], out: &mut [u8]) -> Sent
    ensures sent { result ≡ sent_of true message.now (length out.old) }
    ensures lent { out.new ≡ front (bytes_sent true message.now (length out.old)) out.old }
{
    if out.len() < message.len() {
        return Err(Unsent::ShortBuffer);
    }
    out[..message.len()].copy_from_slice(message);
    Ok(message.len())
}
