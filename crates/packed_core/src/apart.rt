//! Classes of codes beside one another.
ghost use Rattle.std.specs.Prelude.{◌≡◌, ◌<◌, ℕ, All, Contains, IfOk, OnOk, Some, length, slice_get, true};
ghost use Rattle.packed_core.specs.declared.classes.Class.{Class};
ghost use Rattle.packed_core.specs.Ways.{AreAllNested, AreApartFrom, AreCompared, AreNested, IsNotedApart, Leads};
ghost use Rattle.packed_core.specs.Words.{joined_words};

use crate::classes::{Class, Classes};
use crate::index::is_joined;
use std::alloc::{AllocError, Global};

/// Whether a row has all bits of another.
fn is_within(a: &[u64], b: &[u64]) -> bool
    ensures { result ≡ true → joined_words a.now b.now ≡ b.now }
{
    a.len() == b.len() && is_joined(b, a, b)
}

/// Whether one of two rows has all bits of the other.
fn are_nested(a: &[u64], b: &[u64]) -> bool
    ensures { result ≡ true → AreNested a.now b.now }
{
    is_within(a, b) || is_within(b, a)
}

/// Puts a number behind others, unless these rows are nested.
fn note_apart(numbers: &mut Vec<usize>, i: usize, a: &[u64], b: &[u64]) -> Result<(), AllocError>
    ensures { OnOk result (IsNotedApart numbers.old.items numbers.new.items i a.now b.now) }
{
    if are_nested(a, b) {
        return Ok(());
    }
    numbers.push(i)?;
    Ok(())
}

/// The numbers of the classes that are apart from one.
fn apart_from(alloc: Global, list: &[Class], class: &Class) -> Result<Vec<usize>, AllocError>
    ensures { IfOk result (λ numbers. AreApartFrom list.now class.now numbers.items) }
{
    let mut numbers = Vec::new(alloc);
    for (i, other) in list.iter().enumerate() {
        note_apart(
            &mut numbers,
            i,
            class.mask.as_slice(),
            other.mask.as_slice(),
        )?;
    }
    Ok(numbers)
}

/// The numbers of so many classes.
fn numbers_to(alloc: Global, count: usize) -> Result<Vec<usize>, AllocError>
    ensures below { IfOk result (λ numbers. All (λ j. j < count) numbers.items) }
    ensures every { IfOk result (λ numbers. (j : ℕ) → j < count → Contains numbers.items j) }
{
    let mut numbers = Vec::with_capacity(alloc, count)?;
    for i in 0..count {
        numbers.push(i)?;
    }
    Ok(numbers)
}

/// Whether a row is within another, or the other within it.
fn leads(a: &[u64], b: &[u64], rising: bool) -> bool
    ensures { result ≡ true → Leads rising a.now b.now }
{
    if rising {
        is_within(a, b)
    } else {
        is_within(b, a)
    }
}

/// The mask of a class.
fn mask_at(list: &[Class], i: usize) -> &[u64]
    requires { i < length list.now }
    ensures { (class : Class) → slice_get list.now i ≡ Some class → result.now ≡ class.mask.items }
{
    list[i].mask.as_slice()
}

/// Whether each class has all bits of the one before it, or each all of the one behind it.
fn is_chain(list: &[Class], rising: bool) -> bool
    ensures { result ≡ true → AreAllNested list.now }
{
    for i in 1..list.len() {
        if !leads(mask_at(list, i - 1), mask_at(list, i), rising) {
            return false;
        }
    }
    true
}

/// Whether all classes are nested, as it can be seen from those that are neighbours.
fn are_all_nested(list: &[Class]) -> bool
    ensures { result ≡ true → AreAllNested list.now }
{
    is_chain(list, true) || is_chain(list, false)
}

/// The numbers of the classes that are apart from one, where it is known whether all are nested.
fn apart_in(alloc: Global, list: &[Class], i: usize, nested: bool) -> Result<Vec<usize>, AllocError>
    requires there { i < length list.now }
    requires nested { nested ≡ true → AreAllNested list.now }
    ensures { IfOk result (λ numbers. (class : Class) → slice_get list.now i ≡ Some class → AreApartFrom list.now class numbers.items) }
{
    if nested {
        Ok(Vec::new(alloc))
    } else {
        apart_from(alloc, list, &list[i])
    }
}

/// Classes, each beside the others.
pub(crate) fn compared(alloc: Global, list: Vec<Class>) -> Result<Classes, AllocError>
    ensures list { IfOk result (λ classes. classes.list ≡ list) }
    ensures compared { IfOk result AreCompared }
{
    let every = numbers_to(alloc, list.len())?;
    let nested = are_all_nested(list.as_slice());
    let mut apart = Vec::with_capacity(alloc, list.len())?;
    for i in 0..list.len() {
        apart.push(apart_in(alloc, list.as_slice(), i, nested)?)?;
    }
    Ok(Classes { list, every, apart })
}
