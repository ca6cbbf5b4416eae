//! Entries by their keys, and lists in ascending order.

ghost use Rattle.std.specs.Prelude.{◌≡◌, ◌<◌, ◌++◌, ℕ, [], ◌∷◌, map, length, slice_index_or, All, IfOk, OnOk};
ghost use Rattle.std.specs.List.{AllPairs};
ghost use Rattle.std.specs.List.Sorted.{IsStrictlyIncreasing};
ghost use Rattle.closed_model.specs.Models.{ComesBefore, HaveTheSame};
ghost use Rattle.closed_model.specs.Inside.Entries.{values_at};
ghost use Rattle.closed_model.specs.Inside.Ordered.{AreListsOf};

use el_logic::{MemberLists, Numbers, PairLists, Pairs};
use std::alloc::{AllocError, Global};

/// The numbers in ascending order, each once.
pub fn ordered_numbers(alloc: Global, numbers: &[u32]) -> Result<Numbers, AllocError>
    ensures same { IfOk result (λ ordered. HaveTheSame ordered numbers.now) }
    ensures ascending { IfOk result IsStrictlyIncreasing }
{
    let mut ordered = Vec::with_capacity(alloc, numbers.len())?;
    ordered.extend_from_slice(numbers)?;
    ordered.sort_unstable();
    ordered.dedup();
    Ok(Numbers::from_vec(ordered))
}

/// The pairs in ascending order, each once.
pub fn ordered_pairs(alloc: Global, pairs: &[(u32, u32)]) -> Result<Pairs, AllocError>
    ensures same { IfOk result (λ ordered. HaveTheSame ordered pairs.now) }
    ensures ascending { IfOk result (AllPairs ComesBefore) }
{
    let mut ordered = Vec::with_capacity(alloc, pairs.len())?;
    ordered.extend_from_slice(pairs)?;
    ordered.sort_unstable();
    ordered.dedup();
    Ok(Pairs::from_vec(ordered))
}

// Adds a value to the list of its key.
fn add<T: Copy + Drop>(lists: &mut Vec<Vec<T>>, key: u32, value: T) -> Result<(), AllocError>
    requires { key < length lists.old.items }
    ensures each { OnOk result (length lists.new.items ≡ length lists.old.items) }
    ensures values { OnOk result ((other : ℕ) →
        slice_index_or (map (λ list. list.items) lists.new.items) other [] ≡
        slice_index_or (map (λ list. list.items) lists.old.items) other []
        ++ values_at ((key, value) ∷ []) other) }
{
    lists[key as usize].push(value)?;
    Ok(())
}

// As many empty lists.
fn empty_lists<T: Copy + Drop>(alloc: Global, keys: u32) -> Result<Vec<Vec<T>>, AllocError>
    ensures each { IfOk result (λ lists. length lists.items ≡ keys) }
    ensures empty { IfOk result (λ lists. (key : ℕ) →
        slice_index_or (map (λ list. list.items) lists.items) key [] ≡ []) }
{
    let mut lists = Vec::with_capacity(alloc, keys as usize)?;
    for _key in 0..keys {
        lists.push(Vec::new(alloc))?;
    }
    Ok(lists)
}

// The values of the entries with each key below a number.
fn grouped<T: Copy + Drop>(
    alloc: Global,
    keys: u32,
    entries: &[(u32, T)],
) -> Result<Vec<Vec<T>>, AllocError>
    requires { All (λ entry. entry.0 < keys) entries.now }
    ensures each { IfOk result (λ lists. length lists.items ≡ keys) }
    ensures values { IfOk result (λ lists. (key : ℕ) →
        slice_index_or (map (λ list. list.items) lists.items) key [] ≡ values_at entries.now key) }
{
    let mut lists = empty_lists(alloc, keys)?;
    for entry in entries {
        add(&mut lists, entry.0, entry.1)?;
    }
    Ok(lists)
}

/// A list of numbers for each key below a number, in ascending order.
pub fn number_lists(
    alloc: Global,
    keys: u32,
    entries: &[(u32, u32)],
) -> Result<MemberLists, AllocError>
    requires { All (λ entry. entry.0 < keys) entries.now }
    ensures lists { IfOk result (AreListsOf keys entries.now) }
    ensures ascending { IfOk result (All IsStrictlyIncreasing) }
{
    let lists = grouped(alloc, keys, entries)?;
    let mut ordered = Vec::with_capacity(alloc, lists.len())?;
    for list in lists.as_slice() {
        ordered.push(ordered_numbers(alloc, list.as_slice())?)?;
    }
    Ok(MemberLists::from_vec(ordered))
}

/// A list of pairs for each key below a number, in ascending order.
pub fn pair_lists(
    alloc: Global,
    keys: u32,
    entries: &[(u32, (u32, u32))],
) -> Result<PairLists, AllocError>
    requires { All (λ entry. entry.0 < keys) entries.now }
    ensures lists { IfOk result (AreListsOf keys entries.now) }
    ensures ascending { IfOk result (All (AllPairs ComesBefore)) }
{
    let lists = grouped(alloc, keys, entries)?;
    let mut ordered = Vec::with_capacity(alloc, lists.len())?;
    for list in lists.as_slice() {
        ordered.push(ordered_pairs(alloc, list.as_slice())?)?;
    }
    Ok(PairLists::from_vec(ordered))
}
