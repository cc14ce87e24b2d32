// What deeds do to values.
ghost use Rattle.std.specs.Prelude.{◌≡◌};
ghost use Rattle.script_parts.specs.Deeds.{found_short, overwrites};

use crate::parts::Deed;
use commute_ops::{Amount, Value};

/// Whether the operation writes over what is newer: a set or a draw.
pub fn overwrites(deed: &Deed) -> bool
    ensures { result ≡ overwrites deed.now }
{
    match deed {
        Deed::Set(_) => true,
        Deed::Draw(_) => true,
        Deed::Get => false,
        Deed::Apply(_) => false,
    }
}

/// The number of a sum that is less than what the operation draws. None if it draws nothing, or if there is enough.
pub fn found_short(deed: &Deed, value: &Value) -> Option<Amount>
    ensures { result ≡ found_short deed.now value.now }
{
    match (deed, value) {
        (Deed::Draw(amount), Value::Sum(found)) => {
            if found.0 < *amount {
                return Some(found.0);
            }
            None
        }
        _ => None,
    }
}
