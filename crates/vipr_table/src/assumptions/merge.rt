//! Unions and removals on lists of numbers in rising order.

ghost use Rattle.std.specs.Prelude.{◌≡◌, ◌++◌, ℕ, true, false, length, not, nat_eq, filter, IfOk};
ghost use Rattle.vipr_table.specs.Rising.{IsRising, IsUnion, has};

use std::alloc::{AllocError, Global};

/// Whether a number is in a rising list.
pub(crate) fn is_in(xs: &[u32], index: u32) -> bool
    requires { IsRising xs.now }
    ensures { result ≡ has xs.now index }
{
    is_within(xs, index) && xs.binary_search(&index).is_ok()
}

// Whether a number is one from the first item of a rising list to its last.
#[inline(always)]
fn is_within(xs: &[u32], index: u32) -> bool
    requires { IsRising xs.now }
    ensures { result ≡ false → has xs.now index ≡ false }
{
    if xs.is_empty() || index < xs[0] {
        return false;
    }
    index <= xs[xs.len() - 1]
}

/// Whether each item of `ys` is in `xs`, too. Mostly `xs` begins or ends with them.
pub(crate) fn has_all(xs: &[u32], ys: &[u32]) -> bool
    ensures { result ≡ true → (q : ℕ) → has ys.now q ≡ true → has xs.now q ≡ true }
{
    if xs.len() < ys.len() {
        return false;
    }
    if is_same(&xs[..ys.len()], ys) {
        return true;
    }
    if is_same(&xs[xs.len() - ys.len()..], ys) {
        return true;
    }
    has_each(xs, ys)
}

// Whether two lists of one length are equal. Items are compared several at once.
fn is_same(xs: &[u32], ys: &[u32]) -> bool
    requires { length xs.now ≡ length ys.now }
    ensures { result ≡ true → xs.now ≡ ys.now }
{
    if xs.first() != ys.first() || xs.last() != ys.last() {
        return false;
    }
    let mut same = true;
    let mut i = 0;
    while i < xs.len() {
        same &= xs[i] == ys[i];
        i += 1;
    }
    same
}

// Whether each item of `ys` is in `xs`, item by item.
fn has_each(xs: &[u32], ys: &[u32]) -> bool
    ensures { result ≡ true → (q : ℕ) → has ys.now q ≡ true → has xs.now q ≡ true }
{
    if xs.last() < ys.last() {
        return false;
    }
    let mut i = 0;
    for y in ys {
        while i < xs.len() && xs[i] < *y {
            i += 1;
        }
        if i == xs.len() || xs[i] != *y {
            return false;
        }
        i += 1;
    }
    true
}

/// The items of two rising lists, each once, in order.
pub(crate) fn join(alloc: Global, xs: &[u32], ys: &[u32]) -> Result<Vec<u32>, AllocError>
    requires left { IsRising xs.now }
    requires right { IsRising ys.now }
    ensures { IfOk result (λ v. IsUnion xs.now ys.now v.items) }
{
    if is_below(xs, ys) {
        return concat(alloc, xs, ys);
    }
    if is_below(ys, xs) {
        return concat(alloc, ys, xs);
    }
    merge(alloc, xs, ys)
}

/// Whether all items of one rising list come before those of another. Neither is empty then.
pub(crate) fn is_below(xs: &[u32], ys: &[u32]) -> bool
    requires left { IsRising xs.now }
    requires right { IsRising ys.now }
    ensures { result ≡ true → IsRising (xs.now ++ ys.now) }
{
    if xs.is_empty() || ys.is_empty() {
        return false;
    }
    xs[xs.len() - 1] < ys[0]
}

/// The items of both, one list behind the other.
pub(crate) fn concat(alloc: Global, xs: &[u32], ys: &[u32]) -> Result<Vec<u32>, AllocError>
    ensures { IfOk result (λ v. v.items ≡ xs.now ++ ys.now) }
{
    extended(Vec::with_capacity(alloc, xs.len() + ys.len())?, xs, ys)
}

// A list with the items of two others behind it.
#[inline(always)]
fn extended(mut all: Vec<u32>, xs: &[u32], ys: &[u32]) -> Result<Vec<u32>, AllocError>
    ensures { IfOk result (λ v. v.items ≡ (all.items ++ xs.now) ++ ys.now) }
{
    let xs_added = all.extend_from_slice(xs);
    let ys_added = all.extend_from_slice(ys);
    xs_added.and(ys_added).and(Ok(all))
}

// Joins two rising lists, item by item.
fn merge(alloc: Global, xs: &[u32], ys: &[u32]) -> Result<Vec<u32>, AllocError>
    requires left { IsRising xs.now }
    requires right { IsRising ys.now }
    ensures { IfOk result (λ v. IsUnion xs.now ys.now v.items) }
{
    let mut all = Vec::with_capacity(alloc, xs.len() + ys.len())?;
    let mut i = 0;
    let mut j = 0;
    while i < xs.len() && j < ys.len() {
        let low = xs[i].min(ys[j]);
        i += (xs[i] == low) as usize;
        j += (ys[j] == low) as usize;
        all.push(low)?;
    }
    extended(all, &xs[i..], &ys[j..])
}

/// The items other than `index`.
pub(crate) fn all_but(alloc: Global, xs: &[u32], index: u32) -> Result<Vec<u32>, AllocError>
    ensures { IfOk result (λ v. v.items ≡ filter (λ x. not (nat_eq x index)) xs.now) }
{
    let mut items = xs.to_vec(alloc)?;
    items.retain(|x| *x != index);
    Ok(items)
}
