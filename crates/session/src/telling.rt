//! Telling a climb.
ghost use Rattle.std.specs.Prelude.{◌≡◌, ◌≤◌, length};
ghost use Rattle.session.specs.Calls.{with_climb};
ghost use Rattle.session.specs.Limits.{list_used};

use crate::limits::LIST_USED;

/// Stands in the list where the climb has no rule.
// Kept as a byte: the list is bytes, and this one is what callers were told.
const NO_RULE: u8 = 255;

/// Writes the climb to the front of the list.
pub(crate) fn tell(climb: &[u8], list: &mut [u8])
    requires { (length climb.now ≤ list_used) × (list_used ≤ length list.old) }
    ensures { list.new ≡ with_climb climb.now list.old }
{
    list[..LIST_USED].fill(NO_RULE);
    list[..climb.len()].copy_from_slice(climb);
}
