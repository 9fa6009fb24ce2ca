//! The words of a line of the protocol.
ghost use Rattle.std.specs.Prelude.{◌≡◌, option_map};
ghost use Rattle.protocol.specs.Words.{split_at_space, word_number};

/// What stands before the first space of a line, and what stands after it; None where there is no space.
pub fn split_at_space(line: &[u8]) -> Option<(&[u8], &[u8])>
    ensures { option_map (λ p. (p.0.now, p.1.now)) result ≡ split_at_space line.now }
{
    for (i, byte) in line.iter().enumerate() {
        if *byte == b' ' {
            return Some((&line[..i], &line[i + 1..]));
        }
    }
    None
}

/// The number that a word of 1 to 8 digits writes; none for any other word.
pub fn word_number(word: &[u8]) -> Option<u32>
    ensures { result ≡ word_number word.now }
{
    if word.is_empty() || word.len() > 8 {
        return None;
    }
    let mut number = 0_u32;
    for byte in word {
        if !byte.is_ascii_digit() {
            return None;
        }
        number = 10 * number + u32::from(*byte - b'0');
    }
    Some(number)
}
