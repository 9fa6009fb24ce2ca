//! How many segments of 16 words a node with so many words takes.
ghost use Rattle.std.specs.Prelude.{◌≡◌, ◌+◌, ◌≤◌};
ghost use Rattle.cactus_stack.specs.Nodes.{charge as charge_of_words, growth_charge as growth_of_words};

/// How many segments of 16 words hold this many words: a sixteenth of them, rounded up.
pub fn charge(words: usize) -> usize
    requires { words ≤ 65536 }
    ensures { result ≡ charge_of_words words }
{
    (words + 15) / 16
}

/// The further segments that a node of `words` words takes to become longer by `more`: none while its last segment has
/// room for them.
pub fn growth_charge(words: usize, more: usize) -> usize
    requires { words + more ≤ 65536 }
    ensures { result ≡ growth_of_words words more }
{
    charge(words + more) - charge(words)
}
