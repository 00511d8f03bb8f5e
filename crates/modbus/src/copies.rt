// Bytes copied into a lent slice. What lies past its end is left out, and nothing else changes.
ghost use Rattle.std.specs.Prelude.{◌≡◌, ◌+◌, ◌≤◌, length, set};
ghost use Rattle.std.proofs.lemmas.List.Edits.{sets};

// A store that leaves the slice alone where it lies past the end, as hex_pairs has it: a public one in a crate below both would be longer than the two.
#[tactic(auto, using(crate::proofs::Copying::past))]
fn put(slice: &mut [u8], at: usize, byte: u8)
    ensures { slice.new ≡ set slice.old at byte }
{
    // no `get_mut`: after it a proof knows the slice's length and none of its bytes
    if at < slice.len() {
        slice[at] = byte;
    }
}

// Copies the bytes to `out` from `at` on, as far as they fit, and tells the place behind them.
pub(crate) fn copy_at(bytes: &[u8], out: &mut [u8], at: usize) -> usize
    requires { at + length bytes.now ≤ 255 }
    ensures behind { result ≡ at + length bytes.now }
    ensures lent { out.new ≡ sets out.old at bytes.now }
{
    for (i, byte) in bytes.iter().enumerate() {
        put(out, at + i, *byte);
    }
    at + bytes.len()
}
