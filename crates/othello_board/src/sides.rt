//! The squares of an Othello board that touch a square by a side.
ghost use Rattle.std.specs.Prelude.{◌≡◌, ◌<◌, IfSome};
ghost use Rattle.othello_board.specs.Rules.{above, below, left_of, right_of};

/// The square above, or none in row 1.
pub fn above(square: u8) -> Option<u8>
    requires { square < 64 }
    ensures value { result ≡ above square }
    ensures within { IfSome result (λ s. s < 64) }
{
    if square < 8 { None } else { Some(square - 8) }
}

/// The square below, or none in row 8.
pub fn below(square: u8) -> Option<u8>
    requires { square < 64 }
    ensures value { result ≡ below square }
    ensures within { IfSome result (λ s. s < 64) }
{
    if square < 56 { Some(square + 8) } else { None }
}

/// The square to the left, or none in column a.
pub fn left_of(square: u8) -> Option<u8>
    requires { square < 64 }
    ensures value { result ≡ left_of square }
    ensures within { IfSome result (λ s. s < 64) }
{
    if square % 8 == 0 {
        None
    } else {
        Some(square - 1)
    }
}

/// The square to the right, or none in column h.
pub fn right_of(square: u8) -> Option<u8>
    requires { square < 64 }
    ensures value { result ≡ right_of square }
    ensures within { IfSome result (λ s. s < 64) }
{
    if square % 8 < 7 {
        Some(square + 1)
    } else {
        None
    }
}
