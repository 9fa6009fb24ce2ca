//! Numbers, values, moves and faults, written at the end of an answer's text.
ghost use Rattle.std.specs.Prelude.{◌≡◌, ◌+◌, ◌≤◌, ◌++◌, length, decimal};
ghost use Rattle.std.specs.Fmt.{signed_decimal};
ghost use Rattle.protocol.specs.Texts.{move_text, error_text};

use arrayvec::ArrayVec;
use itoa::Buffer;
use othello_moves::Choice;

/// Appends a number in decimal: at most 20 digits.
pub fn push_number<const ROOM: usize>(text: &mut ArrayVec<u8, ROOM>, number: u64)
    requires { length text.old.items + 20 ≤ ROOM }
    ensures text { text.new.items ≡ text.old.items ++ decimal number }
    ensures short { length text.new.items ≤ length text.old.items + 20 }
{
    push_digits(text, Buffer::new().format(number));
}

/// Appends a signed number in decimal, with `-` where it is negative: at most 11 bytes.
pub fn push_value<const ROOM: usize>(text: &mut ArrayVec<u8, ROOM>, value: i32)
    requires { length text.old.items + 11 ≤ ROOM }
    ensures text { text.new.items ≡ text.old.items ++ signed_decimal value }
    ensures short { length text.new.items ≤ length text.old.items + 11 }
{
    push_digits(text, Buffer::new().format(value));
}

/// Appends this text, a number in decimal, as it is.
fn push_digits<const ROOM: usize>(text: &mut ArrayVec<u8, ROOM>, digits: &str)
    requires { length text.old.items + length digits.now ≤ ROOM }
    ensures { text.new.items ≡ text.old.items ++ digits.now }
{
    text.try_extend_from_slice(digits.as_bytes()).unwrap();
}

/// Appends a move: `a1` to `h8`, `pass`, or `-` for None. At most 4 bytes.
pub fn push_move<const ROOM: usize>(text: &mut ArrayVec<u8, ROOM>, choice: Option<Choice>)
    requires { length text.old.items + 4 ≤ ROOM }
    ensures text { text.new.items ≡ text.old.items ++ move_text choice }
    ensures short { length text.new.items ≤ length text.old.items + 4 }
{
    match choice {
        None => text.push(b'-'),
        Some(Choice::Pass) => text.try_extend_from_slice(b"pass").unwrap(),
        Some(Choice::Square(square)) => {
            text.push(b'a' + square % 8);
            text.push(b'1' + square / 8);
        }
    }
}

/// Appends `ERR`, a space and this number, of a fault or a refusal: at most 7 bytes.
pub fn push_error<const ROOM: usize>(text: &mut ArrayVec<u8, ROOM>, fault: u8)
    requires { length text.old.items + 7 ≤ ROOM }
    ensures text { text.new.items ≡ text.old.items ++ error_text fault }
    ensures short { length text.new.items ≤ length text.old.items + 7 }
{
    text.try_extend_from_slice(b"ERR ").unwrap();
    push_digits(text, Buffer::new().format(fault));
}
