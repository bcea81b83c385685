// Vectors of a fixed capacity that are Copy, as arrays are and the kit's ArrayVec is not. A contract sees of one what it sees of an
// ArrayVec, the items.
ghost use Rattle.std.specs.Prelude.{⊤, ◌≡◌, ◌+◌, ◌<◌, ◌≤◌, ◌==◌, [], ◌∷◌, ◌++◌, length};
ghost use Rattle.arrayvec.specs.ArrayVec.{array_vec_len};

use std::alloc::AllocError;
use std::marker::Model;
use std::ops::DerefSlice;

// A type with a value for the places that hold no item yet.
pub trait Blank: Copy {
    ghost blank: { Self };

    fn blank() -> Self
        ensures { result ≡ blank };
}

impl Blank for bool {
    ghost use Rattle.std.specs.Prelude.{false};

    ghost blank = { false };

    fn blank() -> Self {
        false
    }
}

// At most N items. The places after them hold the blank, so that the items tell all places: a struct is Copy only where what a contract
// sees of it gives its fields back.
pub struct Few<T: Blank, const N: usize> {
    places: [T; N],
    len: usize,
}

impl<T: Blank, const N: usize> Model for Few<T, N> {
    ghost use Rattle.std.specs.Prelude.{◌≡◌, ◌-◌, ◌++◌, length, take, replicate};
    ghost use Rattle.arrayvec.specs.ArrayVec.{ArrayVec, array_vec_code};
    ghost use Rattle.sheet.specs.Few.{IsStored, told_len, told_places};

    ghost Value = { ArrayVec T };

    ghost coded = { array_vec_code T.code };

    ghost view = { λ v. record { items = take v.len v.places } };

    ghost invariant = { λ v. IsStored N T.blank v.places v.len };

    ghost inverse = { λ v. record { places = v.items ++ replicate (N - length v.items) T.blank; len = length v.items } };

    ghost inverse_ok = { λ v stored i. record { places = told_places stored i; len = told_len stored i } };
}

impl<T: Blank, const N: usize> Clone for Few<T, N> {
    ghost is_clone = { λ v w. w ≡ v };

    ghost is_infallible = { λ _. ⊤ };

    fn clone(&self) -> Result<Self, AllocError> {
        Ok(*self)
    }
}

impl<T: Blank, const N: usize> Copy for Few<T, N> {}

impl<T: Blank, const N: usize> Few<T, N> {
    // No items yet.
    pub fn new() -> Self
        ensures { result.items ≡ [] }
    {
        Few {
            places: [T::blank(); N],
            len: 0,
        }
    }

    // How many items there are.
    #[inline]
    pub fn len(&self) -> usize
        ensures value { result ≡ array_vec_len self.now }
        ensures fits { result ≤ N }
    {
        self.len
    }

    // Whether there is no item.
    #[inline]
    pub fn is_empty(&self) -> bool
        ensures { result ≡ (array_vec_len self.now == 0) }
    {
        self.len == 0
    }

    // Whether there is no room left.
    #[inline]
    pub fn is_full(&self) -> bool
        ensures value { result ≡ (array_vec_len self.now == N) }
        ensures fits { array_vec_len self.now ≤ N }
    {
        self.len == N
    }

    // One item more, after the others.
    #[inline]
    pub fn push(&mut self, item: T)
        requires { array_vec_len self.old < N }
        ensures items { self.new.items ≡ self.old.items ++ item ∷ [] }
        ensures len { array_vec_len self.new ≡ array_vec_len self.old + 1 }
    {
        let len = self.len;
        self.places[len] = item;
        self.len = len + 1;
    }
}

// The items as a slice.
impl<T: Blank, const N: usize> DerefSlice for Few<T, N> {
    type Elem = T;

    ghost deref_gives = { λ v xs. (xs ≡ v.items) × (length xs ≤ N) };

    #[inline]
    fn deref(&self) -> &[T] {
        &self.places[..self.len]
    }
}
