// HEX as a word of a command: pairs of capital hex digits, or `-` for no bytes at all.
ghost use Rattle.std.specs.Prelude.{◌≡◌, length, take};
ghost use Rattle.std.proofs.lemmas.List.Edits.{sets};
ghost use Rattle.bench_words.specs.Spelling.{in_capitals, spelling_of, bytes_spelt};

// Puts the bytes that HEX spells at the start of `bytes`, and tells how many they are. More than fit are no HEX of a command.
#[tactic(auto, using(crate::proofs::Hexes::spells))]
pub fn spelt(word: &[u8], bytes: &mut [u8]) -> Option<usize>
    ensures number { result ≡ spelling_of word.now (length bytes.old) }
    ensures lent { bytes.new ≡ sets bytes.old 0 (bytes_spelt word.now) }
{
    if word == b"-".as_slice() {
        return Some(0);
    }
    if !in_capitals(word) {
        return None;
    }
    let n = hex_pairs::decode(word, bytes);
    if n == 0 || bytes.len() < n || 2 * n != word.len() {
        return None;
    }
    Some(n)
}

// Whether no character is one of a-f.
fn in_capitals(word: &[u8]) -> bool
    ensures { result ≡ in_capitals word.now }
{
    word.iter().all(|character| hex_pairs::capital_of(*character) == *character)
}

// The first `n` bytes, or all where there are fewer.
pub fn first(bytes: &[u8], n: usize) -> &[u8]
    ensures { result.now ≡ take n bytes.now }
{
    &bytes[..n.min(bytes.len())]
}
