// The words of a line. They are parted by exactly one space, and no space stands at the line's start or end.
ghost use Rattle.std.specs.Prelude.{◌≡◌};
ghost use Rattle.bench_words.specs.Words.{word_count, word_at};

// How many words the line has, or 0 where a space stands at its start, at its end or after another. In one pass over the characters: by the parts between
// spaces, whether one is empty and then how many they are, a line of many words takes four times the time.
#[tactic(auto, using(base::proofs::Tests::tests), unfolding(crate::specs::Words::word_count, crate::specs::Words::count_from))]
pub fn count(line: &[u8]) -> usize
    ensures { result ≡ word_count line.now }
{
    let mut words = 1;
    let mut before = b' ';
    for &character in line {
        if character == b' ' {
            if before == b' ' {
                return 0;
            }
            words += 1;
        }
        before = character;
    }
    if before == b' ' { 0 } else { words }
}

// Word `k`, counted from 0. It is empty where there are fewer.
pub fn word(line: &[u8], k: usize) -> &[u8]
    ensures { result.now ≡ word_at k line.now }
{
    line.split(|character| *character == b' ')
        .nth(k)
        .unwrap_or(&[])
}
