//! What stands at a number in an arena.

ghost use Rattle.std.specs.Prelude.{◌≡◌, slice_get, slice_set};
ghost use Rattle.std.specs.Option.{option_copied};

/// The item at a number, where there is one.
pub fn get_at<T>(items: &[T], i: usize) -> Option<&T>
    ensures { option_copied result ≡ slice_get items.now i }
{
    items.get(i)
}

/// Puts an item in the place of the one at a number, where there is one.
pub fn set_at<T: Drop>(items: &mut Vec<T>, i: usize, item: T)
    ensures { items.new.items ≡ slice_set items.old.items i item }
{
    if i < items.len() {
        items[i] = item;
    }
}
