//! The items of a constant while it is read, with how much they weigh.

ghost use Rattle.std.specs.Prelude.{◌≡◌, ◌-◌, ◌^◌, min, [], ◌∷◌, ◌++◌, true, IfOk, OnOk, IfErr};
ghost use Rattle.ng_values.specs.Measure.{pair_weight as measured};
ghost use Rattle.ng_values.specs.declared.value.Value.TheVariants as v;
ghost use Rattle.ng_values.specs.View.{plain, plain_items, plain_pairs};
ghost use Rattle.ng_values.specs.Make.{put_all};
ghost use Rattle.ng_declare.specs.Constants.{fits_list, fits_rec};
ghost use Rattle.ng_declare.specs.Weights.{ItemsWeigh, PairsWeigh, Fits};

use crate::halt::Halt;
use ng_ast::Place;
use ng_values::{NgText, Value, list, rec};
use std::alloc::{AllocError, Global};
use std::collections::BTreeMap;

// The limits of a constant.
const MAX_WEIGHT: u64 = 65536;

const MAX_INNER_DEPTH: u64 = 31;

/// The items of a list.
#[derive(Drop)]
pub struct Listing {
    pub items: Vec<Value>,
    pub weight: u64,
}

/// The pairs of a record, and the weight of each pair that counts by its key.
#[derive(Drop)]
pub struct Pairing {
    pub pairs: Vec<(NgText, Value)>,
    pub weights: BTreeMap<NgText, u64>,
    pub weight: u64,
}

impl Listing {
    pub fn new(alloc: Global) -> Listing
        ensures items { result.items.items ≡ [] }
        ensures weighs { ItemsWeigh result.items.items result.weight }
    {
        Listing {
            items: Vec::new(alloc),
            weight: 1,
        }
    }

    /// Adds an item, in constant time.
    pub fn push(&mut self, item: Value, place: Place) -> Result<(), Halt>
        requires { ItemsWeigh self.old.items.items self.old.weight }
        ensures items { OnOk result (self.new.items.items ≡ self.old.items.items ++ item ∷ []) }
        ensures weighs { OnOk result (ItemsWeigh self.new.items.items self.new.weight) }
        ensures refused { IfErr result (Fits (fits_list (self.old.items.items ++ item ∷ []))) }
    {
        let weight = item.weight().saturating_add(self.weight);
        if weight > MAX_WEIGHT {
            return Err(Halt::Limit(place));
        }
        if item.depth() > MAX_INNER_DEPTH {
            return Err(Halt::Limit(place));
        }
        self.items.push(item)?;
        self.weight = weight;
        Ok(())
    }

    pub fn finish(self, alloc: Global) -> Result<Value, AllocError>
        requires { ItemsWeigh self.items.items self.weight }
        ensures { IfOk result (λ w. w ≡ v.List (plain_items self.items.items)) }
    {
        let Listing { items, weight: _ } = self;
        match list(alloc, items) {
            Ok(value) => Ok(value),
            Err(_) => Err(AllocError),
        }
    }
}

impl Pairing {
    pub fn new(alloc: Global) -> Pairing
        ensures pairs { result.pairs.items ≡ [] }
        ensures weighs { PairsWeigh result.pairs.items result.weights.entries result.weight }
    {
        Pairing {
            pairs: Vec::new(alloc),
            weights: BTreeMap::new(alloc),
            weight: 1,
        }
    }

    /// Adds a pair. Where n pairs stand, it takes log n comparisons of keys.
    pub fn push(&mut self, key: NgText, value: Value, place: Place) -> Result<(), Halt>
        requires { PairsWeigh self.old.pairs.items self.old.weights.entries self.old.weight }
        ensures pairs { OnOk result (self.new.pairs.items ≡ self.old.pairs.items ++ (key, value) ∷ []) }
        ensures weighs { OnOk result (PairsWeigh self.new.pairs.items self.new.weights.entries self.new.weight) }
        ensures refused { IfErr result (Fits (fits_rec (self.old.pairs.items ++ (key, value) ∷ []))) }
    {
        let own = pair_weight(&key, &value);
        if own > MAX_WEIGHT {
            return Err(Halt::Limit(place));
        }
        if value.depth() > MAX_INNER_DEPTH {
            return Err(Halt::Limit(place));
        }
        let before = self.weights.insert(key.copy()?, own)?.unwrap_or(0);
        let weight = self.weight + own - before;
        if weight > MAX_WEIGHT {
            return Err(Halt::Limit(place));
        }
        self.pairs.push((key, value))?;
        self.weight = weight;
        Ok(())
    }

    pub fn finish(self, alloc: Global) -> Result<Value, AllocError>
        requires { PairsWeigh self.pairs.items self.weights.entries self.weight }
        ensures { IfOk result (λ w. w ≡ v.Rec (put_all [] (plain_pairs self.pairs.items))) }
    {
        let Pairing {
            pairs,
            weights: _,
            weight: _,
        } = self;
        match rec(alloc, pairs) {
            Ok(value) => Ok(value),
            Err(_) => Err(AllocError),
        }
    }
}

// The weight of a pair, or the greatest number where that is more.
fn pair_weight(key: &NgText, value: &Value) -> u64
    ensures { result ≡ min (measured (key.now, plain value.now)) (2 ^ 64 - 1) }
{
    value
        .weight()
        .saturating_add(1)
        .saturating_add(key.as_str().len() as u64)
}
