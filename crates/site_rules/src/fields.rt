//! The fields after the addresses of a proxy's header.
ghost use Rattle.std.specs.Prelude.{◌≡◌, option_map};
ghost use Rattle.std.specs.Option.{option_copied};
ghost use Rattle.site_rules.specs.Fields.{first_field, field_of};

/// The first field: its type, its value, and what follows it. None where it is cut short.
fn first_field(bytes: &[u8]) -> Option<(u8, &[u8], &[u8])>
    ensures { option_map (λ f. (f.0, f.1.now, f.2.now)) result ≡ first_field bytes.now }
{
    if bytes.len() < 3 {
        return None;
    }
    let size = usize::from(bytes[1]) * 256 + usize::from(bytes[2]);
    let (front, tail) = bytes.split_at(3);
    if tail.len() < size {
        return None;
    }
    let (value, rest) = tail.split_at(size);
    Some((front[0], value, rest))
}

/// The value of the first field of this type; None where no field has it, or where one before it is cut short. A field is a
/// byte of type, two bytes of length, the high one first, and so many bytes of value.
pub fn field_of(fields: &[u8], kind: u8) -> Option<&[u8]>
    ensures { option_copied result ≡ field_of kind fields.now }
{
    let mut rest = fields;
    for _ in 0..fields.len() {
        let Some((found, value, next)) = first_field(rest) else {
            return None;
        };
        if found == kind {
            return Some(value);
        }
        rest = next;
    }
    None
}
