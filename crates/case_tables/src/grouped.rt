//! Entries by their keys.

ghost use Rattle.std.specs.Prelude.{◌≡◌, ◌<◌, ◌++◌, ℕ, [], ◌∷◌, map, length, IfOk, OnOk};
ghost use Rattle.case_tables.specs.Keyed.{at_key, of_key};

use std::alloc::{AllocError, Global};
use std::marker::Model;

/// A list of entries for each key.
#[derive(Drop)]
pub struct Grouped<T> {
    lists: Vec<Vec<T>>,
    none: Vec<T>,
}

impl<T> Model for Grouped<T> {
    ghost use Rattle.std.specs.Prelude.{◌≡◌, List, [], map};
    ghost use Rattle.std.specs.Coded.{coded_list};

    ghost Value = { List (List T) };

    ghost coded = { coded_list (coded_list T.code) };

    ghost view = { λ g. map (λ list. list.items) g.lists.items };

    ghost invariant = { λ g. g.none.items ≡ [] };
}

impl<T> Grouped<T> {
    /// The entries with a key, in their order.
    pub fn with_key(&self, key: u32) -> &[T]
        ensures { result.now ≡ at_key self.now key }
    {
        match self.lists.get(key as usize) {
            Some(list) => list.as_slice(),
            None => self.none.as_slice(),
        }
    }
}

// Makes lists up to a key.
fn widen<T: Copy + Drop>(alloc: Global, lists: &mut Vec<Vec<T>>, key: u32) -> Result<(), AllocError>
    ensures room { OnOk result (key < length lists.new.items) }
    ensures same { OnOk result ((other : ℕ) →
        at_key (map (λ list. list.items) lists.new.items) other ≡
        at_key (map (λ list. list.items) lists.old.items) other) }
{
    let missing = (key as usize + 1).saturating_sub(lists.len());
    for _added in 0..missing {
        lists.push(Vec::new(alloc))?;
    }
    Ok(())
}

// Adds an entry to the list of its key.
fn add<T: Copy + Drop>(
    alloc: Global,
    lists: &mut Vec<Vec<T>>,
    key: u32,
    entry: T,
) -> Result<(), AllocError>
    ensures { OnOk result ((other : ℕ) →
        at_key (map (λ list. list.items) lists.new.items) other ≡
        at_key (map (λ list. list.items) lists.old.items) other
        ++ of_key ((key, entry) ∷ []) other) }
{
    widen(alloc, lists, key)?;
    lists[key as usize].push(entry)?;
    Ok(())
}

/// The entries of a list by their keys.
pub fn group<T: Copy + Drop>(alloc: Global, pairs: &[(u32, T)]) -> Result<Grouped<T>, AllocError>
    ensures { IfOk result (λ grouped. (key : ℕ) → at_key grouped key ≡ of_key pairs.now key) }
{
    let mut lists = Vec::new(alloc);
    for pair in pairs {
        add(alloc, &mut lists, pair.0, pair.1)?;
    }
    Ok(Grouped {
        lists,
        none: Vec::new(alloc),
    })
}
