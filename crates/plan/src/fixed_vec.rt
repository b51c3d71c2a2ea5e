// A vector of a fixed capacity, which is cleared by one write, however much it held.
ghost use Rattle.std.specs.Prelude.{◌≡◌, ◌<◌, ◌≤◌, [], ◌∷◌, ◌++◌, length, slice_set};
ghost use Rattle.arrayvec.specs.ArrayVec.{with_item};

use std::marker::Model;

// The first `len` cells count. A contract sees it as it sees an `ArrayVec`. That one writes over each element that it drops, so that
// an opening would take the longer the longer the search before it was, and a loading the larger the building before it.
#[derive(Drop)]
pub struct FixedVec<T: Copy + Default, const N: usize> {
    cells: [T; N],
    len: usize,
}

impl<T: Copy + Default, const N: usize> Model for FixedVec<T, N> {
    ghost use Rattle.std.specs.Prelude.{◌≡◌, ◌≤◌, length, take};
    ghost use Rattle.arrayvec.specs.ArrayVec.{ArrayVec, array_vec_code};

    ghost Value = { ArrayVec T };

    ghost coded = { array_vec_code T.code };

    ghost view = { λ v. record { items = take v.len v.cells } };

    ghost invariant = { λ v. (v.len ≤ N) × (length v.cells ≡ N) };
}

impl<T: Copy + Default, const N: usize> Default for FixedVec<T, N> {
    ghost is_default = { λ v. v.items ≡ [] };

    fn default() -> FixedVec<T, N> {
        FixedVec {
            cells: [T::default(); N],
            len: 0,
        }
    }
}

impl<T: Copy + Default, const N: usize> FixedVec<T, N> {
    pub(crate) fn len(&self) -> usize
        ensures value { result ≡ length self.now.items }
        ensures fits { result ≤ N }
    {
        self.len
    }

    pub(crate) fn as_slice(&self) -> &[T]
        ensures value { result.now ≡ self.now.items }
        ensures fits { length result.now ≤ N }
    {
        &self.cells[..self.len]
    }

    pub(crate) fn clear(&mut self)
        ensures { self.new.items ≡ [] }
    {
        self.len = 0;
    }

    pub(crate) fn push(&mut self, item: T)
        requires { length self.old.items < N }
        ensures { self.new.items ≡ self.old.items ++ item ∷ [] }
    {
        self.cells[self.len] = item;
        self.len += 1;
    }

    pub(crate) fn set(&mut self, at: usize, item: T)
        requires { at < length self.old.items }
        ensures { self.new ≡ with_item self.old at item }
    {
        write_at(&mut self.cells, at, item);
    }
}

// A function of its own, since where a cell is written the check wants it to be in the array, and `set` knows that it is in the list.
fn write_at<T: Copy, const N: usize>(cells: &mut [T; N], at: usize, item: T)
    requires { at < N }
    ensures { cells.new ≡ slice_set cells.old at item }
{
    cells[at] = item;
}
