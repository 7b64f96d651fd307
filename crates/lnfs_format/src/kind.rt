ghost use Rattle.std.specs.Prelude.{◌≡◌};
ghost use Rattle.lnfs_format.specs.Kinds.{number_of};

use lnfs_calipso::Label;
use lnfs_types::{Items, Octets};

/// A label and the bytes that name it.
#[derive(Debug, Drop)]
pub struct NameRow {
    pub label: Label,
    pub bytes: Octets,
}

/// How a format spells labels.
#[derive(Debug, Drop)]
pub enum Kind {
    /// The body of a CALIPSO option (RFC 5570 section 5.1).
    Calipso,
    /// A text, under one DOI.
    Text { doi: u32 },
    /// A table of names.
    Name { rows: Items<NameRow> },
    /// A text with the DOI.
    Long,
}

impl Kind {
    /// The number of the kind: 0 for bodies, 1 for texts, 2 for names, 3 for long texts.
    pub fn number(&self) -> u32
        ensures { result ≡ number_of self.now }
    {
        match self {
            Kind::Calipso => 0,
            Kind::Text { doi: _ } => 1,
            Kind::Name { rows: _ } => 2,
            Kind::Long => 3,
        }
    }
}
