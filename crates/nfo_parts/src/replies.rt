// Writing REPLY, ACK and NAK at the start of a lent buffer. Each tells how many bytes it wrote; where the buffer has no room for all, it
// writes none and tells 0: a length, as the definition `fitting` has it and C is told it, and no `Option`.
ghost use Rattle.std.specs.Prelude.{◌≡◌, length};
ghost use Rattle.base.specs.Buffers.{front, fitting};
ghost use Rattle.nfo_parts.specs.Replies.{digits_of, reply_of, ack_of, nak_of};

use table::ENumber;

// The answer to an ENQUIRY: the parameter, and the word that it has.
#[tactic(auto, unfolding(hex_pairs::specs::Hex::hex_of, crate::specs::Replies::digits_of, crate::specs::Replies::body_of, crate::specs::Replies::reply_of))]
pub fn reply(adr: u8, e: ENumber, word: u16, out: &mut [u8]) -> usize
    ensures count { result ≡ length (fitting (reply_of adr e.0 word) (length out.old)) }
    ensures lent { out.new ≡ front (fitting (reply_of adr e.0 word) (length out.old)) out.old }
{
    let [p, q, r, s] = digits(e.0);
    let [v, w, x, y] = digits(word);
    let mut m = [adr, 0x02, b'E', p, q, r, s, b'=', v, w, x, y, 0x03, 0];
    m[13] = checks::bcc(&m[2..13]);
    put(&m, out)
}

// The answer to a SELECT that was done. `nak` differs in one byte: both are named in docs/PROMISES.md, with `ack_of` and `nak_of`.
#[tactic(auto, unfolding(crate::specs::Replies::ack_of))]
pub fn ack(adr: u8, out: &mut [u8]) -> usize
    ensures count { result ≡ length (fitting (ack_of adr) (length out.old)) }
    ensures lent { out.new ≡ front (fitting (ack_of adr) (length out.old)) out.old }
{
    put(&[adr, 0x06], out)
}

// The answer to what is refused.
#[tactic(auto, unfolding(crate::specs::Replies::nak_of))]
pub fn nak(adr: u8, out: &mut [u8]) -> usize
    ensures count { result ≡ length (fitting (nak_of adr) (length out.old)) }
    ensures lent { out.new ≡ front (fitting (nak_of adr) (length out.old)) out.old }
{
    put(&[adr, 0x15], out)
}

// Puts a message at the start of `out`, or nothing where it does not fit.
#[tactic(auto, using(base::proofs::Sets::fitting_all, base::proofs::Sets::fitting_none), unfolding(base::specs::Buffers::front))]
fn put(message: &[u8], out: &mut [u8]) -> usize
    ensures count { result ≡ length (fitting message.now (length out.old)) }
    ensures lent { out.new ≡ front (fitting message.now (length out.old)) out.old }
{
    if out.len() < message.len() {
        return 0;
    }
    out[..message.len()].copy_from_slice(message);
    message.len()
}

// The four hex digits of a word, the high one first. It is put in its place in `reply`, where a call for each word would cost more
// than docs/SPEED.md holds.
#[inline(always)]
#[tactic(auto, unfolding(hex_pairs::specs::Hex::hex_of, crate::specs::Replies::digits_of))]
fn digits(word: u16) -> [u8; 4]
    ensures { result ≡ digits_of word }
{
    let [high, low] = word.to_be_bytes();
    [
        hex_pairs::digit_of(high / 16),
        hex_pairs::digit_of(high % 16),
        hex_pairs::digit_of(low / 16),
        hex_pairs::digit_of(low % 16),
    ]
}
