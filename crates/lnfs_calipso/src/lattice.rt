ghost use Rattle.std.specs.Prelude.{◌≡◌, ◌<◌, ◌≤◌, nat_lt, length, All, IfSome, IfNone, MatchOption};
ghost use Rattle.lnfs_calipso.specs.Label.{label_at, dom_of, IsLabel, IsPreorderWithBottom, IsAntisymmetric, IsOfLabels};
ghost use Rattle.lnfs_calipso.specs.Levels.{AreLevels, Apart, AllAbove, IsPlaceOf, IsNowhere};
ghost use Rattle.lnfs_calipso.specs.Same.{level_of};
ghost use Rattle.lnfs_calipso.specs.Refused.{Levels, Decreed, IsTwice, IsBelow};
ghost use Rattle.std.specs.Option.{option_map};

use crate::Level;
use crate::label::Label;
use std::alloc::{AllocError, Global};
use std::marker::Model;
use thiserror::Error;

/// The largest number of levels of a site.
pub const MAX_LEVELS: usize = 32;

/// The labels of a site's levels, of which the first is that of level 0. Each level dominates level 0, which dominates
/// itself alone; of two others the labels decide.
#[derive(Debug, Drop)]
pub struct Lattice {
    labels: Vec<Label>,
}

impl Model for Lattice {
    ghost use Rattle.std.specs.Prelude.{List};
    ghost use Rattle.lnfs_calipso.specs.Label.{Label as LabelValue};
    ghost use Rattle.lnfs_calipso.specs.Levels.{AreLevels};

    ghost Value = { List LabelValue };

    ghost view = { λ l. l.labels.items };

    ghost invariant = { λ l. AreLevels l.labels.items };
}

/// Why labels aren't those of levels.
#[derive(Clone, Copy, Debug, PartialEq, Eq, Error)]
pub enum LatticeError {
    /// The label at this place stands earlier too.
    #[error("label {index} stands earlier too")]
    Twice { index: u32 },
    /// The label at this place doesn't dominate the first, or there is none at all.
    #[error("label {index} does not dominate the first, or there is no label")]
    NoBottom { index: u32 },
    /// There are more than 32 labels.
    #[error("there are more than 32 labels")]
    TooMany,
    /// There is no memory.
    #[error("out of memory")]
    Memory,
}

impl From<AllocError> for LatticeError {
    ghost use Rattle.lnfs_calipso.specs.declared.lattice.LatticeError.TheVariants.{Memory};

    ghost from_gives = { λ _ e. e ≡ Memory };

    fn from(_error: AllocError) -> LatticeError {
        LatticeError::Memory
    }
}

/// The first place whose label stands earlier too.
fn first_twice(labels: &[Label]) -> Option<u32>
    requires { length labels.now ≤ MAX_LEVELS }
    ensures { MatchOption result (Apart labels.now (length labels.now)) (IsTwice labels.now) }
{
    for (index, label) in labels.iter().enumerate() {
        if labels[..index].contains(label) {
            return Some(index as u32);
        }
    }
    None
}

/// The first place whose label doesn't dominate the first.
fn first_not_above(labels: &[Label], bottom: &Label) -> Option<u32>
    requires few { length labels.now ≤ MAX_LEVELS }
    requires bottom { label_at labels.now 0 ≡ bottom.now }
    ensures none { IfNone result (AllAbove labels.now (length labels.now)) }
    ensures some { IfSome result (IsBelow labels.now) }
{
    for (index, label) in labels.iter().enumerate() {
        if !label.dominates(bottom) {
            return Some(index as u32);
        }
    }
    None
}

/// The first place of an equal label.
fn place_of(labels: &[Label], label: &Label) -> Option<usize>
    ensures { result ≡ level_of labels.now label.now }
{
    labels.iter().position(|held| held == label)
}

impl Lattice {
    /// The levels of the given labels, each of which dominates the first.
    ///
    /// # Errors
    ///
    /// In this order: `TooMany` where there are more than 32 labels, `Twice` at the first label that
    /// stands earlier too, `NoBottom` at the first that doesn't dominate the first, and at 0 where
    /// there is no label. `Memory` where there is no memory.
    pub fn new(alloc: Global, labels: &[Label]) -> Result<Lattice, LatticeError>
        ensures { Levels labels.now result }
    {
        let lattice = Lattice::decreed(alloc, labels)?;
        match first_not_above(labels, lattice.label(Level(0))) {
            Some(index) => Err(LatticeError::NoBottom { index }),
            None => Ok(lattice),
        }
    }

    /// The levels of the given labels, of which the first is below all others, whatever it is.
    ///
    /// # Errors
    ///
    /// In this order: `TooMany` where there are more than 32 labels, `Twice` at the first label that
    /// stands earlier too, `NoBottom` at 0 where there is no label. `Memory` where there is no memory.
    pub fn decreed(alloc: Global, labels: &[Label]) -> Result<Lattice, LatticeError>
        ensures { Decreed labels.now result }
    {
        if labels.len() > MAX_LEVELS {
            return Err(LatticeError::TooMany);
        }
        if let Some(index) = first_twice(labels) {
            return Err(LatticeError::Twice { index });
        }
        if labels.is_empty() {
            return Err(LatticeError::NoBottom { index: 0 });
        }
        let labels = labels.to_vec(alloc)?;
        Ok(Lattice { labels })
    }

    /// The levels of labels that are known to be those of levels. Takes no memory.
    pub fn of(labels: Vec<Label>) -> Lattice
        requires { AreLevels labels.items }
        ensures { result ≡ labels.items }
    {
        Lattice { labels }
    }

    /// The number of levels.
    pub fn len(&self) -> u32
        ensures value { result ≡ length self.now }
        ensures some { 0 < result }
        ensures few { result ≤ MAX_LEVELS }
    {
        self.labels.len() as u32
    }

    /// Whether there is such a level.
    pub fn holds(&self, level: Level) -> bool
        ensures { result ≡ nat_lt level.0 (length self.now) }
    {
        level.0 < self.len()
    }

    /// The label of a level.
    pub fn label(&self, level: Level) -> &Label
        requires { level.0 < length self.now }
        ensures { result.now ≡ label_at self.now level.0 }
    {
        &self.labels[level.0 as usize]
    }

    /// The level of an equal label.
    pub fn find(&self, label: &Label) -> Option<Level>
        ensures exact { option_map (λ level. level.0) result ≡ level_of self.now label.now }
        ensures found { IfSome result (λ level. IsPlaceOf self.now label.now level.0) }
        ensures missing { IfNone result (IsNowhere self.now label.now) }
    {
        let place = place_of(&self.labels, label)?;
        Some(Level(place as u32))
    }

    /// Whether a level dominates another.
    pub fn dom(&self, a: Level, b: Level) -> bool
        requires a { a.0 < length self.now }
        requires b { b.0 < length self.now }
        ensures { result ≡ dom_of self.now a.0 b.0 }
    {
        b.0 == 0 || (a.0 > 0 && self.label(a).dominates(self.label(b)))
    }

    /// What holds of the labels of levels.
    pub fn law_levels(&self)
        ensures { AreLevels self.now }
    {
        let _labels = &self.labels;
    }

    /// Dominance of levels is a preorder, with level 0 below all of them.
    pub fn law_preorder(&self)
        ensures { IsPreorderWithBottom (dom_of self.now) }
    {
        let _labels = &self.labels;
    }

    /// Dominance of levels is an order. Where each label dominates the first, it is that of the labels.
    pub fn law_order(&self)
        ensures antisymmetric { All IsLabel self.now → IsAntisymmetric self.now (dom_of self.now) }
        ensures labels { All IsLabel self.now → AllAbove self.now (length self.now)
            → IsOfLabels self.now (dom_of self.now) }
    {
        let _labels = &self.labels;
    }
}
