ghost use Rattle.std.specs.Prelude.{◌≡◌, [], ◌<◌, ◌≤◌, OnErr, OnOk, All, Any};
ghost use Rattle.lnfs_calipso.specs.Label.{has_comp, with_comp, dominates, IsLabel};
ghost use Rattle.lnfs_calipso.specs.Bitmap.{members, IsBitmap};
ghost use Rattle.lnfs_calipso.specs.Making.{IsMade};

use crate::bitmap::{COMPARTMENTS, covers, has, insert, same};
use std::alloc::{AllocError, Global};
use std::marker::Model;
use thiserror::Error;

/// A sensitivity label (RFC 5570 section 2): a domain of interpretation, a sensitivity and a set of
/// compartments from 0 to 1,919. It takes memory up to the word of its highest compartment.
#[derive(Debug, Drop)]
pub struct Label {
    doi: u32,
    sens: u8,
    words: Vec<u32>,
}

impl Model for Label {
    ghost use Rattle.lnfs_calipso.specs.Label.{Label as LabelValue};
    ghost use Rattle.lnfs_calipso.specs.Bitmap.{members, IsBitmap};

    ghost Value = { LabelValue };

    ghost view = { λ l. record { doi = l.doi; sens = l.sens; comps = members l.words.items } };

    ghost invariant = { λ l. IsBitmap l.words.items };
}

/// Why there is no label.
#[derive(Clone, Copy, Debug, PartialEq, Eq, Error)]
pub enum LabelError {
    /// A compartment is above 1,919.
    #[error("a compartment is above 1919")]
    BadCompartment,
    /// There is no memory.
    #[error("out of memory")]
    Memory,
}

impl From<AllocError> for LabelError {
    ghost use Rattle.lnfs_calipso.specs.declared.label.LabelError.TheVariants.{Memory};

    ghost from_gives = { λ _ e. e ≡ Memory };

    fn from(_error: AllocError) -> LabelError {
        LabelError::Memory
    }
}

impl Label {
    /// The label of the given compartments, in any order.
    ///
    /// # Errors
    ///
    /// `BadCompartment` where a compartment is above 1,919. `Memory` where there is no memory.
    pub fn new(alloc: Global, doi: u32, sens: u8, comps: &[u16]) -> Result<Label, LabelError>
        ensures { IsMade doi sens comps.now result }
    {
        let mut label = Label::bare(alloc, doi, sens);
        for comp in comps {
            if *comp >= COMPARTMENTS {
                return Err(LabelError::BadCompartment);
            }
            label.insert(*comp)?;
        }
        Ok(label)
    }

    /// The label without compartments. Takes no memory.
    pub fn bare(alloc: Global, doi: u32, sens: u8) -> Label
        ensures { result ≡ record { doi = doi; sens = sens; comps = [] } }
    {
        Label {
            doi,
            sens,
            words: Vec::new(alloc),
        }
    }

    /// Adds a compartment.
    ///
    /// # Errors
    ///
    /// `AllocError` where there is no memory. Then nothing has changed.
    pub fn insert(&mut self, comp: u16) -> Result<(), AllocError>
        requires { comp < COMPARTMENTS }
        ensures ok { OnOk result (self.new ≡ with_comp self.old comp) }
        ensures err { OnErr result (self.new ≡ self.old) }
    {
        insert(&mut self.words, comp)?;
        Ok(())
    }

    /// The label of a bitmap of compartments. Takes no memory.
    pub(crate) fn of_words(doi: u32, sens: u8, words: Vec<u32>) -> Label
        requires { IsBitmap words.items }
        ensures { result ≡ record { doi = doi; sens = sens; comps = members words.items } }
    {
        Label { doi, sens, words }
    }

    /// The bitmap of the compartments.
    pub(crate) fn words(&self) -> &[u32]
        ensures members { members result.now ≡ self.now.comps }
        ensures bitmap { IsBitmap result.now }
    {
        &self.words
    }

    /// The domain of interpretation.
    pub fn doi(&self) -> u32
        ensures { result ≡ self.now.doi }
    {
        self.doi
    }

    /// The sensitivity.
    pub fn sens(&self) -> u8
        ensures { result ≡ self.now.sens }
    {
        self.sens
    }

    /// Whether a compartment is in the label; a number above 1,919 never is.
    pub fn has(&self, comp: u16) -> bool
        ensures { result ≡ has_comp self.now.comps comp }
    {
        has(&self.words, comp)
    }

    /// Whether the label dominates another (RFC 5570 section 2.4.2).
    pub fn dominates(&self, other: &Label) -> bool
        ensures { result ≡ dominates self.now other.now }
    {
        self.doi == other.doi && other.sens <= self.sens && covers(&self.words, &other.words)
    }

    /// What holds of each label.
    pub fn law_label(&self)
        ensures { IsLabel self.now }
    {
        let _doi = self.doi;
        let _sens = self.sens;
        let _words = &self.words;
    }
}

impl Clone for Label {
    ghost is_clone = { λ label copy. copy ≡ label };

    fn clone(&self) -> Result<Label, AllocError> {
        let words = self.words.clone()?;
        Ok(Label {
            doi: self.doi,
            sens: self.sens,
            words,
        })
    }
}

impl PartialEq for Label {
    ghost use Rattle.std.specs.Cmp.{partial_equiv_from_equiv};
    ghost use Rattle.lnfs_calipso.specs.Same.{same_label};
    ghost use Rattle.lnfs_calipso.specs.Equality.{same_label-equivalence};

    ghost eq = { same_label };

    ghost laws = { partial_equiv_from_equiv same_label-equivalence };

    fn eq(&self, other: &Label) -> bool {
        self.doi == other.doi && self.sens == other.sens && same(&self.words, &other.words)
    }
}

impl Eq for Label {
    ghost use Rattle.lnfs_calipso.specs.Equality.{same_label-equivalence};

    ghost laws = { same_label-equivalence };
}
