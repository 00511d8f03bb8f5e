// The bytes pending on a line, and what a scan of more bytes hands back: shared by the protocols that come as streams.
// `Pending::empty` and `emptied` hold nothing; `push` and `begin_with` take one byte into the lent array, so that a scan copies no array.
// Here, in the scans and in the ports the array and its count are two arguments and no `&mut Pending`: the C interface lends each by itself
// (`card_receive_nfo_in` and the others of linecard_c).
#![tactic(auto)]

ghost use Rattle.std.specs.Prelude.{◌≡◌};
ghost use Rattle.pending.specs.Held.{empty, pushed, emptied, began_with};

// The raw bytes left, in order: the first `len` of the array. A `len` above 512 reads as 512, so any bits are bytes pending.
#[repr(C)]
#[derive(Clone, Copy)]
pub struct Pending {
    pub bytes: [u8; 512],
    pub len: usize,
}

// What a scan tells: how many bytes the lent array holds then, how many it used, and whether they end a message. Where they do, the array holds
// the message, as the protocol's feeding has it. `taken` stands beside the numbers and is no `Option` or `Result` of them: both stand in either case.
#[derive(Clone, Copy)]
pub struct Scanned {
    pub len: usize,
    pub used: usize,
    pub taken: bool,
}

impl Pending {
    // Nothing is pending, and the array is zeros.
    #[tactic(auto, unfolding(crate::specs::Held::empty))]
    pub fn empty() -> Pending
        ensures { result ≡ empty }
    {
        Pending {
            bytes: [0; 512],
            len: 0,
        }
    }

    // Nothing is pending any more. The array's bytes stay.
    #[tactic(auto, unfolding(crate::specs::Held::emptied))]
    pub fn emptied(mut self) -> Pending
        ensures { result ≡ emptied self }
    {
        self.len = 0;
        self
    }
}

// Puts `b` after the first `len` bytes, and tells how many there are then. A full array stays as it is. (By `get_mut` there would be no test, but of
// what is written through it a proof knows no byte: `pushed` was left open.)
#[tactic(auto, using(base::proofs::Tests::tests), unfolding(crate::specs::Held::pushed))]
pub fn push(bytes: &mut [u8; 512], len: usize, b: u8) -> usize
    ensures { record { bytes = bytes.new; len = result } ≡ pushed (record { bytes = bytes.old; len = len }) b }
{
    if len < 512 {
        bytes[len] = b;
        return len + 1;
    }
    len
}

// Puts `b` first, alone: there is one byte then.
#[tactic(auto, unfolding(crate::specs::Held::began_with))]
pub fn begin_with(bytes: &mut [u8; 512], b: u8) -> usize
    ensures { record { bytes = bytes.new; len = result } ≡ began_with (record { bytes = bytes.old; len = 0 }) b }
{
    bytes[0] = b;
    1
}
