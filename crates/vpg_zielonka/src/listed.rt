//! Sets of at most 64 listed products, each a bit of a word.
ghost use Rattle.std.specs.Prelude.{◌≡◌, ℕ, ◌+◌, ◌<◌, ◌≤◌, ◌^◌, ◌==◌, List, Bool, true, false, ◌&&◌, ◌||◌, not, cond, All, IfOk, length, map, slice_index_or};
ghost use Rattle.vpg_guards.specs.Formula.{truth, all_true, any_true, IsBelow, AreBelow};
ghost use Rattle.vpg_guards.specs.View.{formula_of, formulas_of};
ghost use Rattle.vpg_number.specs.Counted.{AreDistinct};
ghost use Rattle.vpg_zielonka.specs.Words.{Fits, IsWordOf, IsWordAmong, in_word, word_of, columns_of};

use std::alloc::{AllocError, Global};
use std::marker::Model;
use vpg_guards::Guard;

/// At most 64 listed products. Clauses see the products and the number of the features.
#[derive(Drop)]
pub(crate) struct Listed {
    features: u16,
    count: u32,
    // the word of all products
    all: u64,
    // for each feature the word of the products that have it
    columns: Vec<u64>,
}

impl Model for Listed {
    ghost use Rattle.vpg_zielonka.specs.Words.{Listing};

    ghost Value = { Listing };

    ghost use Rattle.vpg_zielonka.specs.Words.{rows, AreColumns};

    ghost view = { λ l. record { features = l.features; products = rows l.columns.items l.count } };

    ghost invariant = { λ l. AreColumns l.features l.count l.all l.columns.items };
}

/// Returns 1 if it is true, else 0.
fn digit(is_true: bool) -> u64
    ensures { result ≡ cond is_true 1 0 }
{
    if is_true { 1 } else { 0 }
}

/// Returns the word of the products that have a feature.
fn column(products: &[Vec<bool>], feature: usize) -> u64
    requires few { length products.now ≤ 64 }
    requires long { All (λ p. feature < length p.items) products.now }
    ensures { result ≡ word_of (map (λ p. p.items) products.now) feature }
{
    let mut word = 0;
    let mut i = products.len();
    while i > 0 {
        i -= 1;
        let product = &products[i];
        word = word * 2 + digit(product[feature]);
    }
    word
}

/// Returns the words of the features.
fn columns(alloc: Global, features: u16, products: &[Vec<bool>]) -> Result<Vec<u64>, AllocError>
    requires few { length products.now ≤ 64 }
    requires long { All (λ p. length p.items ≡ features) products.now }
    ensures { IfOk result (λ columns. columns.items ≡ columns_of (map (λ p. p.items) products.now) features) }
{
    let mut columns = Vec::with_capacity(alloc, features as usize)?;
    for feature in 0..features as usize {
        columns.push(column(products, feature))?;
    }
    Ok(columns)
}

/// Returns the word of that many products.
fn all_of(count: u32) -> u64
    requires { count ≤ 64 }
    ensures { result + 1 ≡ 2 ^ count }
{
    if count == 64 {
        return u64::MAX;
    }
    (1u64 << count) - 1
}

impl Listed {
    /// Returns the list of these products.
    pub(crate) fn of(
        alloc: Global,
        features: u16,
        products: &[Vec<bool>],
    ) -> Result<Listed, AllocError>
        requires few { length products.now ≤ 64 }
        requires long { All (λ p. length p.items ≡ features) products.now }
        requires distinct { AreDistinct (map (λ p. p.items) products.now) }
        ensures features { IfOk result (λ listed. listed.features ≡ features) }
        ensures products { IfOk result (λ listed. listed.products ≡ map (λ p. p.items) products.now) }
    {
        let columns = columns(alloc, features, products)?;
        let count = products.len() as u32;
        let all = all_of(count);
        Ok(Listed {
            features,
            count,
            all,
            columns,
        })
    }

    /// Returns the number of the features.
    pub(crate) fn features(&self) -> u16
        ensures { result ≡ self.now.features }
    {
        self.features
    }

    /// Returns the word of all products.
    pub(crate) fn all(&self) -> u64
        ensures { IsWordAmong self.now.products (λ p. true) result }
    {
        self.all
    }

    /// Returns whether a word has no product.
    pub(crate) fn is_none(&self, word: u64) -> bool
        requires { Fits self.now.products word }
        ensures none { result ≡ true → (p : List Bool) → in_word self.now.products word p ≡ false }
        ensures some { result ≡ false →
            (p : List Bool) × (length p ≡ self.now.features) × (in_word self.now.products word p ≡ true) }
    {
        let _columns = &self.columns;
        word == 0
    }

    /// Returns the products of both.
    pub(crate) fn and(&self, a: u64, b: u64) -> u64
        requires { Fits self.now.products a }
        ensures { IsWordOf self.now.products
            (λ p. in_word self.now.products a p && in_word self.now.products b p) result }
    {
        let _columns = &self.columns;
        a & b
    }

    /// Returns the products of either.
    pub(crate) fn or(&self, a: u64, b: u64) -> u64
        requires a { Fits self.now.products a }
        requires b { Fits self.now.products b }
        ensures { IsWordOf self.now.products
            (λ p. in_word self.now.products a p || in_word self.now.products b p) result }
    {
        let _columns = &self.columns;
        a | b
    }

    /// Returns the products of the first that the second lacks.
    pub(crate) fn without(&self, a: u64, b: u64) -> u64
        requires a { Fits self.now.products a }
        requires b { Fits self.now.products b }
        ensures { IsWordOf self.now.products
            (λ p. in_word self.now.products a p && not (in_word self.now.products b p)) result }
    {
        let _columns = &self.columns;
        a & !b
    }

    /// Returns the products in which a guard is true.
    #[cycle(of_guard)]
    pub(crate) fn of_guard(&self, guard: &Guard) -> u64
        requires { IsBelow self.now.features (formula_of guard.now) }
        ensures { IsWordAmong self.now.products (λ p. truth p (formula_of guard.now)) result }
    {
        match guard {
            Guard::Always => self.all(),
            Guard::Never => 0,
            Guard::Feature(feature) => self.column(*feature),
            Guard::Not(inner) => {
                let word = self.of_guard(inner);
                self.without(self.all(), word)
            }
            Guard::All(parts) => self.of_all(parts.as_slice()),
            Guard::Any(parts) => self.of_any(parts.as_slice()),
        }
    }

    /// Returns the products that have a feature.
    fn column(&self, feature: u16) -> u64
        requires { feature < self.now.features }
        ensures { IsWordAmong self.now.products (λ p. slice_index_or p feature false) result }
    {
        self.columns[feature as usize]
    }

    /// Returns the products in which all of the guards are true.
    #[cycle(of_guard)]
    fn of_all(&self, parts: &[Guard]) -> u64
        requires { AreBelow self.now.features (formulas_of parts.now) }
        ensures { IsWordAmong self.now.products (λ p. all_true p (formulas_of parts.now)) result }
    {
        let mut made = self.all();
        for part in parts {
            let word = self.of_guard(part);
            made = self.and(made, word);
        }
        made
    }

    /// Returns the products in which some of the guards are true.
    #[cycle(of_guard)]
    fn of_any(&self, parts: &[Guard]) -> u64
        requires { AreBelow self.now.features (formulas_of parts.now) }
        ensures { IsWordAmong self.now.products (λ p. any_true p (formulas_of parts.now)) result }
    {
        let mut made = 0;
        for part in parts {
            let word = self.of_guard(part);
            made = self.or(made, word);
        }
        made
    }
}
