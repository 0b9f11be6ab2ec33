//! Types whose equal values are the same value.

ghost use Rattle.std.specs.Prelude.{◌≡◌, true, refl, IsTrue};
ghost use Rattle.std.specs.Cmp.{booleans_Decides, signed_Decides, unsigned_Decides};

/// A type whose equal values are the same value, so that what was compared may be exchanged.
///
/// Equality that looks at a part of a value alone, as at a key, doesn't meet it.
///
/// # Examples
///
/// ```
/// fn first_in_both<T: Exact>(list: &[T], other: &[T]) -> bool {
///     match (list.first(), other.first()) {
///         (Some(one), Some(two)) => one == two,
///         _ => false,
///     }
/// }
///
/// assert!(rt; first_in_both(&[1u64, 2], &[1]));
/// ```
pub trait Exact: Eq {
    ghost same: { (x y : Self) → Self.eq x y ≡ true → x ≡ y };
}

impl Exact for u8 {
    ghost same = { λ x y. (unsigned_Decides x y).0 };
}

impl Exact for u16 {
    ghost same = { λ x y. (unsigned_Decides x y).0 };
}

impl Exact for u32 {
    ghost same = { λ x y. (unsigned_Decides x y).0 };
}

impl Exact for u64 {
    ghost same = { λ x y. (unsigned_Decides x y).0 };
}

impl Exact for u128 {
    ghost same = { λ x y. (unsigned_Decides x y).0 };
}

impl Exact for usize {
    ghost same = { λ x y. (unsigned_Decides x y).0 };
}

impl Exact for i8 {
    ghost same = { λ x y. (signed_Decides x y).0 };
}

impl Exact for i16 {
    ghost same = { λ x y. (signed_Decides x y).0 };
}

impl Exact for i32 {
    ghost same = { λ x y. (signed_Decides x y).0 };
}

impl Exact for i64 {
    ghost same = { λ x y. (signed_Decides x y).0 };
}

impl Exact for i128 {
    ghost same = { λ x y. (signed_Decides x y).0 };
}

impl Exact for isize {
    ghost same = { λ x y. (signed_Decides x y).0 };
}

impl Exact for char {
    ghost same = { λ x y. (unsigned_Decides x y).0 };
}

impl Exact for bool {
    ghost same = { λ x y. (booleans_Decides x y).0 };
}

impl Exact for () {
    ghost same = { λ _ _ _. refl };
}
