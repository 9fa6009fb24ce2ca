//! The definitions of a list of things that have numbers, tried on one small list: each contract is computed from the
//! definitions alone. A thing stands as its number and what is kept under it.
ghost use Rattle.std.specs.Prelude.{◌≡◌, Some, None, [], ◌∷◌, true, false};
ghost use Rattle.numbered_list.specs.Places.{count_below, find_by_number, has_by_number, read_by_number, change_by_number, remove_by_number, inserted};
ghost use Rattle.numbered_list.specs.Rows.{number_in, kept_in, four_things, raised};

/// In a list of the numbers 2, 5, 5 and 9: the first thing of 5 is found, behind one of a lower number; 3 and 6 are not
/// there.
pub fn a_thing_is_found()
    ensures place { count_below number_in 5 four_things ≡ 1 }
    ensures thing { find_by_number number_in 5 four_things ≡ Some (5, 50) }
    ensures no_thing { find_by_number number_in 6 four_things ≡ None }
    ensures there { has_by_number number_in 9 four_things ≡ true }
    ensures not_there { has_by_number number_in 3 four_things ≡ false }
    ensures said { read_by_number number_in kept_in 7 5 four_things ≡ 50 }
    ensures nothing_said { read_by_number number_in kept_in 7 4 four_things ≡ 7 }
{}

/// What one change leaves: the first thing of the number is another or gone, and every other is as it was; a new one comes
/// after those of lower numbers.
pub fn a_list_is_changed()
    ensures changed { change_by_number number_in 5 raised four_things ≡ (2, 20) ∷ (5, 51) ∷ (5, 51) ∷ (9, 90) ∷ [] }
    ensures unchanged { change_by_number number_in 6 raised four_things ≡ four_things }
    ensures gone { remove_by_number number_in 5 four_things ≡ (2, 20) ∷ (5, 51) ∷ (9, 90) ∷ [] }
    ensures all_stay { remove_by_number number_in 6 four_things ≡ four_things }
    ensures between { inserted number_in (6, 60) four_things ≡ (2, 20) ∷ (5, 50) ∷ (5, 51) ∷ (6, 60) ∷ (9, 90) ∷ [] }
    ensures in_front { inserted number_in (5, 49) four_things ≡ (2, 20) ∷ (5, 49) ∷ (5, 50) ∷ (5, 51) ∷ (9, 90) ∷ [] }
    ensures behind { inserted number_in (10, 100) ((9, 90) ∷ []) ≡ (9, 90) ∷ (10, 100) ∷ [] }
{}
