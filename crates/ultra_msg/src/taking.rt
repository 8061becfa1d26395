//! Short lists, from which an item is taken.

ghost use Rattle.std.specs.{Prelude.{◌≡◌, ◌<◌, length, slice_index_or}, List.remove};

use arrayvec::ArrayVec;

/// Takes the item at a place out of a list. Those behind it move forward one by one, since they are
/// few.
#[inline(always)]
pub fn take_out<T: Copy + Default, const N: usize>(list: &mut ArrayVec<T, N>, place: usize) -> T
    requires { place < length list.old.items }
    ensures value { result ≡ slice_index_or list.old.items place result }
    ensures items { list.new.items ≡ remove list.old.items place }
{
    let taken = list[place];
    for at in place + 1..list.len() {
        list[at - 1] = list[at];
    }
    list.pop();
    taken
}
