//! The numbers of commits.
ghost use Rattle.std.specs.Prelude.{◌≡◌, ◌++◌, [], ◌∷◌, ◌<◌, length, IfOk, MatchOption, OnErr, OnOk};
ghost use Rattle.std.specs.List.{AllByRecursion, AllZip};
ghost use Rattle.gixobj_walks.specs.Named.{AreDistinct, AreOfEither, Extends, IsUnnamed, Names};

use gixobj_hash::hash::ObjectId;
use std::alloc::{AllocError, Global};
use std::collections::BTreeMap;
use std::marker::Model;

/// Ids of commits, each with its number: the first has 0.
#[derive(Drop)]
pub struct CommitNames {
    ids: Vec<ObjectId>,
    numbers: BTreeMap<ObjectId, usize>,
}

impl Model for CommitNames {
    ghost use Rattle.std.specs.Prelude.{List};
    ghost use Rattle.gixobj_hash.specs.declared.hash.object_id.ObjectId.{ObjectId};
    ghost use Rattle.gixobj_walks.specs.Numbers.{AreNumbers};

    ghost Value = { List ObjectId };

    ghost view = { λ names. names.ids.items };

    ghost invariant = { λ names. AreNumbers names.ids.items names.numbers };
}

impl CommitNames {
    /// Makes a list without ids. Allocates nothing.
    pub fn new(alloc: Global) -> CommitNames
        ensures { result ≡ [] }
    {
        CommitNames {
            ids: Vec::new(alloc),
            numbers: BTreeMap::new(alloc),
        }
    }

    /// Returns how many ids have numbers. Allocates nothing.
    pub fn len(&self) -> usize
        ensures len { result ≡ length self.now }
        ensures distinct { AreDistinct self.now }
    {
        self.ids.len()
    }

    /// Returns the number of an id, or none if it has none. Allocates nothing.
    pub fn number_of(&self, id: &ObjectId) -> Option<usize>
        ensures found { MatchOption result (IsUnnamed self.now id.now)
            (λ number. Names self.now number id.now) }
    {
        self.numbers.get(id).copied()
    }

    /// Returns the id of a number. Allocates nothing.
    pub fn id_of(&self, number: usize) -> ObjectId
        requires { number < length self.now }
        ensures { Names self.now number result }
    {
        self.ids[number]
    }

    /// Appends an id, and returns its number. Allocates an item of the list, and an entry of the map.
    ///
    /// # Errors
    ///
    /// [`AllocError`] if an allocation fails; then the list is unchanged.
    pub fn push(&mut self, id: ObjectId) -> Result<usize, AllocError>
        requires { IsUnnamed self.old id }
        ensures pushed { IfOk result (λ number.
            (number ≡ length self.old) × (self.new ≡ self.old ++ id ∷ [])) }
        ensures unchanged { OnErr result (self.new ≡ self.old) }
    {
        let number = self.ids.len();
        self.ids.push(id)?;
        match self.numbers.insert(id, number) {
            Ok(_) => Ok(number),
            Err(_) => {
                self.ids.pop();
                Err(AllocError)
            }
        }
    }
}

/// Returns the number of an id, which it gets if it has none.
///
/// # Errors
///
/// [`AllocError`] if an allocation fails.
pub fn number_in(names: &mut CommitNames, id: ObjectId) -> Result<usize, AllocError>
    ensures named { IfOk result (λ number. Names names.new number id) }
    ensures extended { OnOk result (Extends names.old names.new) }
    ensures known { OnOk result (AreOfEither names.new names.old (id ∷ [])) }
{
    match names.number_of(&id) {
        Some(number) => Ok(number),
        None => names.push(id),
    }
}

/// Returns the numbers of ids, in their order. Those without one get one.
///
/// # Errors
///
/// [`AllocError`] if an allocation fails.
pub fn numbers_in(
    alloc: Global,
    names: &mut CommitNames,
    ids: &[ObjectId],
) -> Result<Vec<usize>, AllocError>
    ensures named { IfOk result (λ numbers. AllZip (Names names.new) numbers.items ids.now) }
    ensures extended { OnOk result (Extends names.old names.new) }
    ensures known { OnOk result (AreOfEither names.new names.old ids.now) }
{
    let mut numbers = Vec::new(alloc);
    for id in ids {
        let number = number_in(names, *id)?;
        numbers.push(number)?;
    }
    Ok(numbers)
}

/// Returns the ids of numbers, in their order.
///
/// # Errors
///
/// [`AllocError`] if an allocation fails.
pub fn ids_of(
    alloc: Global,
    names: &CommitNames,
    numbers: &[usize],
) -> Result<Vec<ObjectId>, AllocError>
    requires { AllByRecursion (λ number. number < length names.now) numbers.now }
    ensures { IfOk result (λ ids. AllZip (Names names.now) numbers.now ids.items) }
{
    let mut ids = Vec::new(alloc);
    for number in numbers {
        ids.push(names.id_of(*number))?;
    }
    Ok(ids)
}
