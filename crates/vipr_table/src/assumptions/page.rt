//! Sets of neighbouring indices, a bit for each number.

ghost use Rattle.std.specs.Prelude.{◌≡◌, ◌↔◌, ℕ, ◌+◌, ◌*◌, ◌/◌, ◌^◌, ◌<◌, ◌≤◌, min, max, [], ◌∷◌};
ghost use Rattle.std.specs.Prelude.{length, slice_index, All, IfOk, IsTrue, OnOk};
ghost use Rattle.std.specs.FinSet as set;
ghost use Rattle.vipr_table.specs.{Rising.IsRising, Bits.page_set, Bits.word_at};

use std::alloc::{AllocError, Global};
use std::marker::Model;

// How many numbers a word has a bit for.
const WORD: u32 = 64;

/// A set in words. Each number from the first word on to the last has a bit, which is 1 if it is in
/// the set.
#[derive(Debug, Drop)]
pub(crate) struct IndexPage {
    // the number before the first word, in words
    first: u32,
    words: Vec<u64>,
    // how many indices there are
    len: usize,
}

impl Model for IndexPage {
    ghost use Rattle.std.specs.Coded.{coded_ℕ};
    ghost use Rattle.std.specs.FinSet as set;
    ghost use Rattle.std.specs.Ordering.{nat_cmp};
    ghost use Rattle.std.specs.Prelude.{◌+◌, ◌*◌, ◌≤◌, ◌^◌, length};
    ghost use Rattle.vipr_table.specs.Bits.{page_set};

    ghost Value = { set.FinSet nat_cmp };

    ghost coded = { set.code coded_ℕ };

    ghost view = { λ p. page_set p.first p.words.items };

    ghost invariant = { λ p. 64 * (p.first + length p.words.items) ≤ 2 ^ 32 };
}

impl IndexPage {
    // The page of these words.
    fn of(first: u32, words: Vec<u64>) -> IndexPage
        requires { 64 * (first + length words.items) ≤ 2 ^ 32 }
        ensures { result ≡ page_set first words.items }
    {
        let len = ones(words.as_slice());
        IndexPage { first, words, len }
    }

    /// The words of these indices.
    pub(crate) fn of_rising(alloc: Global, items: &[u32]) -> Result<IndexPage, AllocError>
        requires { IsRising items.now }
        ensures { IfOk result (λ page. page ≡ set.from_list items.now) }
    {
        let first = first_word_of(items);
        Ok(IndexPage::of(first, words_of(alloc, first, items)?))
    }

    /// Whether no index is in the set.
    pub(crate) fn is_empty(&self) -> bool
        ensures { IsTrue result ↔ (self.now ≡ set.empty) }
    {
        are_zero(self.first, self.words.as_slice())
    }

    /// Whether an index is in the set.
    pub(crate) fn contains(&self, index: u32) -> bool
        ensures { result ≡ set.contains self.now index }
    {
        has(self.first, self.words.as_slice(), index)
    }

    /// The indices of both.
    pub(crate) fn union(&self, alloc: Global, other: &IndexPage) -> Result<IndexPage, AllocError>
        ensures { IfOk result (λ page. page ≡ set.union self.now other.now) }
    {
        let words = united(
            alloc,
            self.first,
            self.words.as_slice(),
            other.first,
            other.words.as_slice(),
        )?;
        Ok(IndexPage::of(self.first.min(other.first), words))
    }

    /// All indices but one.
    pub(crate) fn without(&self, alloc: Global, index: u32) -> Result<IndexPage, AllocError>
        ensures { IfOk result (λ page. page ≡ set.remove self.now index) }
    {
        let words = words_without(alloc, self.first, self.words.as_slice(), index)?;
        let was_there = self.contains(index);
        Ok(IndexPage {
            first: self.first,
            words,
            len: self.len.saturating_sub(was_there as usize),
        })
    }

    /// Whether both have the same words. `true` says that they are equal.
    pub(crate) fn is_same(&self, other: &IndexPage) -> bool
        ensures { IsTrue result → self.now ≡ other.now }
    {
        self.first == other.first && self.words.as_slice() == other.words.as_slice()
    }

    /// Adds the indices behind those that are there.
    pub(crate) fn add_to(&self, indices: &mut Vec<u32>) -> Result<(), AllocError>
        ensures { OnOk result (set.from_list indices.new.items
            ≡ set.union (set.from_list indices.old.items) self.now) }
    {
        add_indices(indices, self.first, self.words.as_slice())
    }

    /// How many indices there are.
    pub(crate) fn len(&self) -> usize {
        self.len
    }

    /// How many words there are.
    pub(crate) fn words(&self) -> usize {
        self.words.len()
    }

    /// The first number that has a bit.
    pub(crate) fn start(&self) -> u32 {
        self.first.saturating_mul(WORD)
    }
}

/// Behind which index those end that agree with the one at `start` in all but so many bits.
pub(crate) fn end_of_range(items: &[u32], start: usize, bits: u32) -> usize
    requires start_within { start < length items.now }
    requires a_shift { bits < 32 }
    ensures above { start < result }
    ensures within { result ≤ length items.now }
{
    let range = items[start] >> bits;
    let mut end = start + 1;
    while end < items.len() && items[end] >> bits == range {
        end += 1;
    }
    end
}

/// In how many words these indices are, in pages whose numbers differ in so many bits at most.
pub(crate) fn words_for(items: &[u32], bits: u32) -> usize
    requires { bits < 32 }
{
    let mut words = 0_usize;
    let mut last = None;
    for item in items {
        let more = match last {
            Some(before) if before >> bits == *item >> bits => {
                (*item / WORD).saturating_sub(before / WORD)
            }
            _ => 1,
        };
        words = words.saturating_add(more as usize);
        last = Some(*item);
    }
    words
}

// How many bits are 1.
fn ones(words: &[u64]) -> usize {
    let mut len = 0_usize;
    for word in words {
        len = len.saturating_add(word.count_ones() as usize);
    }
    len
}

// The word of a number, in words, where the first word is that of `first`.
#[inline(always)]
fn word_of(first: u32, words: &[u64], number: u32) -> u64
    ensures { result ≡ word_at first words.now number }
{
    if number < first {
        return 0;
    }
    let place = (number - first) as usize;
    if place < words.len() { words[place] } else { 0 }
}

// Whether the bit of an index is 1.
fn has(first: u32, words: &[u64], index: u32) -> bool
    ensures { result ≡ set.contains (page_set first words.now) index }
{
    (word_of(first, words, index / WORD) >> (index % WORD)) & 1 == 1
}

// Whether each bit is 0.
fn are_zero(first: u32, words: &[u64]) -> bool
    ensures { IsTrue result ↔ (page_set first words.now ≡ set.empty) }
{
    let _first = first;
    for word in words {
        if *word != 0 {
            return false;
        }
    }
    true
}

// The number of the first word of rising indices.
fn first_word_of(items: &[u32]) -> u32
    requires { IsRising items.now }
    ensures within { 64 * result ≤ 2 ^ 32 }
    ensures least { All (λ x. result ≤ x / 64) items.now }
{
    if items.is_empty() {
        return 0;
    }
    items[0] / WORD
}

// The words of these indices.
fn words_of(alloc: Global, first: u32, items: &[u32]) -> Result<Vec<u64>, AllocError>
    requires within { 64 * first ≤ 2 ^ 32 }
    requires least { All (λ x. first ≤ x / 64) items.now }
    ensures within { IfOk result (λ words. 64 * (first + length words.items) ≤ 2 ^ 32) }
    ensures set { IfOk result (λ words. page_set first words.items ≡ set.from_list items.now) }
{
    let mut words = Vec::new(alloc);
    for item in items {
        let place = (*item / WORD - first) as usize;
        lengthen(&mut words, place + 1)?;
        words[place] |= 1 << (*item % WORD);
    }
    Ok(words)
}

// Adds words without a 1 until there are so many.
fn lengthen(words: &mut Vec<u64>, len: usize) -> Result<(), AllocError>
    ensures len { OnOk result (length words.new.items ≡ max (length words.old.items) len) }
    ensures same { OnOk result
        ((k : ℕ) → slice_index words.new.items k ≡ slice_index words.old.items k) }
{
    while words.len() < len {
        words.push(0)?;
    }
    Ok(())
}

// The words of both, from the first one of either to the last.
fn united(
    alloc: Global,
    first: u32,
    words: &[u64],
    other: u32,
    others: &[u64],
) -> Result<Vec<u64>, AllocError>
    requires ours { 64 * (first + length words.now) ≤ 2 ^ 32 }
    requires theirs { 64 * (other + length others.now) ≤ 2 ^ 32 }
    ensures within { IfOk result (λ all. 64 * (min first other + length all.items) ≤ 2 ^ 32) }
    ensures set { IfOk result (λ all. page_set (min first other) all.items
        ≡ set.union (page_set first words.now) (page_set other others.now)) }
{
    let start = first.min(other);
    let end = (first + words.len() as u32).max(other + others.len() as u32);
    let mut all = Vec::with_capacity(alloc, (end - start) as usize)?;
    for number in start..end {
        all.push(word_of(first, words, number) | word_of(other, others, number))?;
    }
    Ok(all)
}

// The words without the bit of an index.
fn words_without(
    alloc: Global,
    first: u32,
    words: &[u64],
    index: u32,
) -> Result<Vec<u64>, AllocError>
    ensures len { IfOk result (λ rest. length rest.items ≡ length words.now) }
    ensures set { IfOk result (λ rest. page_set first rest.items
        ≡ set.remove (page_set first words.now) index) }
{
    let mut rest = words.to_vec(alloc)?;
    clear(&mut rest, first, index);
    Ok(rest)
}

// Makes the bit of an index 0, if there is one.
fn clear(words: &mut Vec<u64>, first: u32, index: u32)
    ensures len { length words.new.items ≡ length words.old.items }
    ensures set { page_set first words.new.items
        ≡ set.remove (page_set first words.old.items) index }
{
    let number = index / WORD;
    if number < first {
        return;
    }
    let place = (number - first) as usize;
    if place < words.len() {
        words[place] &= !(1 << (index % WORD));
    }
}

// Adds the indices of words.
fn add_indices(indices: &mut Vec<u32>, first: u32, words: &[u64]) -> Result<(), AllocError>
    requires { 64 * (first + length words.now) ≤ 2 ^ 32 }
    ensures { OnOk result (set.from_list indices.new.items
        ≡ set.union (set.from_list indices.old.items) (page_set first words.now)) }
{
    for (place, word) in words.iter().enumerate() {
        add_ones(indices, first + place as u32, *word)?;
    }
    Ok(())
}

// Adds the indices of a word.
fn add_ones(indices: &mut Vec<u32>, number: u32, word: u64) -> Result<(), AllocError>
    requires { 64 * (number + 1) ≤ 2 ^ 32 }
    ensures { OnOk result (set.from_list indices.new.items
        ≡ set.union (set.from_list indices.old.items) (page_set number (word ∷ []))) }
{
    let mut left = word;
    while left != 0 {
        let bit = left.trailing_zeros();
        left &= !(1u64 << bit);
        indices.push(number * WORD + bit)?;
    }
    Ok(())
}
