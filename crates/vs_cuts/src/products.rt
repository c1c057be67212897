//! How many trips each two cuts of a layer run both.

ghost use Rattle.std.specs.Prelude.{◌≡◌, ◌<◌, ◌≤◌, All, IfOk, length, vec_len};
ghost use Rattle.vs_cuts.specs.Numbers.{AreProducts, IsProduct};
ghost use Rattle.vs_cuts.specs.declared.products.TheConstants.{MOST_PRODUCT};

use std::alloc::Global;
use vs_types::Memory;

/// How many trips two cuts run both at most, in parts of a whole trip.
pub const MOST_PRODUCT: u64 = 1 << 35;

/// For each two places: how many free trips the cuts there run both, in parts of a whole trip.
#[derive(Drop)]
pub struct Products {
    rows: Vec<Vec<i64>>,
    /// How many places there are.
    pub places: usize,
    /// How many trips two cuts may run both, in parts of a whole trip: no product is greater or below 0.
    pub most: u64,
    ghost few: { most ≤ MOST_PRODUCT },
    ghost each: { vec_len rows ≡ places },
    ghost entries: { All (λ row. vec_len row ≡ places) rows.items },
    ghost within: { All (λ row. AreProducts most row.items) rows.items },
}

impl Products {
    /// None for each two of so many places, where there may be so many.
    pub fn new(alloc: Global, places: usize, most: u64) -> Result<Products, Memory>
        requires { most ≤ MOST_PRODUCT }
        ensures places { IfOk result (λ products. products.places ≡ places) }
        ensures most { IfOk result (λ products. products.most ≡ most) }
    {
        let mut rows = Vec::with_capacity(alloc, places)?;
        for _ in 0..places {
            rows.push(vec![in alloc; 0; places]?)?;
        }
        Ok(Products { rows, places, most })
    }

    /// That of two places.
    pub fn of(&self, one: usize, other: usize) -> i64
        requires one { one < self.now.places }
        requires other { other < self.now.places }
    {
        self.rows[one][other]
    }

    /// Those of a place.
    pub fn row(&self, place: usize) -> &[i64]
        requires { place < self.now.places }
        ensures each { length result.now ≡ self.now.places }
        ensures within { AreProducts self.now.most result.now }
    {
        &self.rows[place]
    }

    /// Two places have this one, or the nearest that there may be.
    pub fn set(&mut self, one: usize, other: usize, product: i64)
        requires one { one < self.old.places }
        requires other { other < self.old.places }
        ensures places { self.new.places ≡ self.old.places }
        ensures most { self.new.most ≡ self.old.most }
    {
        let product = product.max(0).min(self.most as i64);
        self.enter(one, other, product);
        self.enter(other, one, product);
    }

    /// Enters a product in a row.
    fn enter(&mut self, one: usize, other: usize, product: i64)
        requires one { one < self.old.places }
        requires other { other < self.old.places }
        requires product { IsProduct self.old.most product }
        ensures places { self.new.places ≡ self.old.places }
        ensures most { self.new.most ≡ self.old.most }
    {
        let row = &mut self.rows[one];
        row[other] = product;
    }
}
