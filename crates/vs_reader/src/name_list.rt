//! Names of one kind, numbered in order and found by a salted hash.

ghost use Rattle.std.specs.Prelude.{◌≡◌, ℕ, ◌<◌, ◌+◌, ◌^◌, [], ◌∷◌, ◌++◌, length, map, Contains, MatchOption, IfSome, IfOk, OnOk, is_ok, if◌then◌else◌, slice_index_or};
ghost use Rattle.std.specs.String.{string_bytes};
ghost use Rattle.vs_reader.specs.Names.{IsName, Names as Numbered};
ghost use Rattle.vs_reader.specs.NameRules.{AreNames};

use crate::salted::Salted;
use indexmap::IndexSet;
use std::alloc::Global;
use std::marker::Model;
use vs_types::Memory;

/// Names, no two of which are the same, numbered from 0 in the order in which they were added.
#[derive(Drop)]
pub struct NameList {
    names: IndexSet<String, Salted>,
}

impl Model for NameList {
    ghost use Rattle.std.specs.Prelude.{List, map};
    ghost use Rattle.std.specs.String.{string_bytes};
    ghost use Rattle.vs_reader.specs.Rows.{Field};
    ghost use Rattle.vs_reader.specs.NameRules.{AreNames};

    ghost Value = { List Field };

    ghost view = { λ a. map string_bytes a.names.keys };

    ghost invariant = { λ a. AreNames (map string_bytes a.names.keys) };
}

impl NameList {
    /// No names, which this hasher will find.
    pub fn new(alloc: Global, hasher: Salted) -> NameList
        ensures { result ≡ [] }
    {
        NameList {
            names: IndexSet::with_hasher(alloc, hasher),
        }
    }

    /// How many names there are.
    pub fn len(&self) -> usize
        ensures count { result ≡ length self.now }
        ensures names { AreNames self.now }
    {
        self.names.len()
    }

    /// The name of this number, which has no other.
    pub fn get(&self, number: u32) -> &str
        requires { number < length self.now }
        ensures name { result.now ≡ slice_index_or self.now number [] }
        ensures only { (k : ℕ) → Numbered self.now result.now k → k ≡ number }
    {
        self.names.as_slice()[number as usize].as_str()
    }

    /// The number of a name. None where it isn't one of these.
    pub fn find(&self, name: &str) -> Option<u32>
        ensures found { MatchOption result
            (¬ (Contains self.now name.now))
            (λ k. Numbered self.now name.now k) }
        ensures within { IfSome result (λ k. k < length self.now) }
        ensures only { IfSome result (λ k. (j : ℕ) → Numbered self.now name.now j → j ≡ k) }
    {
        let number = self.names.get_index_of(name)?;
        Some(number as u32)
    }

    /// The number of a name, which is compared with the one of this number before all are searched. None where
    /// it isn't one of these.
    pub fn find_near(&self, guess: u32, name: &str) -> Option<u32>
        ensures found { MatchOption result
            (¬ (Contains self.now name.now))
            (λ k. Numbered self.now name.now k) }
        ensures within { IfSome result (λ k. k < length self.now) }
        ensures only { IfSome result (λ k. (j : ℕ) → Numbered self.now name.now j → j ≡ k) }
    {
        if (guess as usize) < self.len() && self.get(guess) == name {
            return Some(guess);
        }
        self.find(name)
    }

    /// Adds a name as the last one. After an error the list is of no more use.
    pub fn add(&mut self, name: &[u8]) -> Result<(), Memory>
        requires name { IsName name.now }
        requires new { ¬ (Contains self.old name.now) }
        requires room { length self.old + 1 < 2 ^ 32 }
        ensures { OnOk result (self.new ≡ self.old ++ name.now ∷ []) }
    {
        let added = text(*self.names.allocator(), name)?;
        insert_new(&mut self.names, added)
    }
}

/// Inserts a name that is none of these as the last one.
fn insert_new(names: &mut IndexSet<String, Salted>, name: String) -> Result<(), Memory>
    requires { ¬ (Contains (map string_bytes names.old.keys) (string_bytes name)) }
    ensures { map string_bytes names.new.keys ≡ (let old = map string_bytes names.old.keys in
        if is_ok result then old ++ string_bytes name ∷ [] else old) }
{
    names.insert(name)?;
    Ok(())
}

/// A name as a text.
fn text(alloc: Global, name: &[u8]) -> Result<String, Memory>
    requires { IsName name.now }
    ensures { IfOk result (λ text. string_bytes text ≡ name.now) }
{
    let Ok(name) = str::from_utf8(name) else {
        unreachable!()
    };
    Ok(String::from_str(alloc, name)?)
}
