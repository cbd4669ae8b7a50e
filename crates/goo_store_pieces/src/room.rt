//! Room for what is kept of look-ups.

ghost use Rattle.std.specs.Prelude.{◌≡◌, ◌⊎◌, []};

/// Makes room for one more among what is kept: where the most are there, all of them go.
pub fn make_room<T: Copy>(kept: &mut Vec<T>, most: usize)
    ensures { (kept.new.items ≡ kept.old.items) ⊎ (kept.new.items ≡ []) }
{
    if kept.len() >= most {
        kept.clear();
    }
}
