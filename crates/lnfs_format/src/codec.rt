//! What reads and writes the labels of a kind of format: closures that are made by whoever starts the program.

ghost use Rattle.std.specs.Prelude.{◌≡◌, ℕ, IfOk};
ghost use Rattle.std.specs.Option.{option_map};
ghost use Rattle.lnfs_format.specs.Kinds.{number_of, reads, writes, ReadsAs, WritesAs};

use crate::kind::Kind;
use lnfs_calipso::Label;
use std::alloc::AllocError;

/// What reads.
pub type ReadFn = Box<dyn Fn(&Kind, &[u8]) -> Result<Option<Label>, AllocError> + Send + Sync>;

/// What writes.
pub type WriteFn = Box<dyn Fn(&Kind, &Label) -> Result<Option<Vec<u8>>, AllocError> + Send + Sync>;

/// Two closures for the formats of a kind, beside the fact that they answer what the kind reads and writes, or want of
/// memory.
#[derive(Drop)]
pub struct Codec {
    kind: u32,
    read: ReadFn,
    write: WriteFn,
    ghost read_callable: { ReadFn.IsAlwaysCallable read },
    ghost write_callable: { WriteFn.IsAlwaysCallable write },
    ghost reads: { (x : _) (y : _) (r : _) → ReadFn.post read x y r → ReadsAs kind x.now y.now r },
    ghost writes: { (x : _) (y : _) (r : _) → WriteFn.post write x y r → WritesAs kind x.now y.now r },
}

impl Codec {
    /// The codec of a kind's number.
    pub fn new(kind: u32, read: ReadFn, write: WriteFn) -> Codec
        requires read_callable { ReadFn.IsAlwaysCallable read }
        requires write_callable { WriteFn.IsAlwaysCallable write }
        requires reads { (x : _) (y : _) (r : _) → ReadFn.post read x y r →
            ReadsAs kind x.now y.now r }
        requires writes { (x : _) (y : _) (r : _) → WriteFn.post write x y r →
            WritesAs kind x.now y.now r }
        ensures { result.kind ≡ kind }
    {
        Codec { kind, read, write }
    }

    fn read(&self, kind: &Kind, bytes: &[u8]) -> Result<Option<Label>, AllocError>
        requires { number_of kind.now ≡ self.now.kind }
        ensures { IfOk result (λ label. label ≡ reads kind.now bytes.now) }
    {
        (self.read)(kind, bytes)
    }

    fn write(&self, kind: &Kind, label: &Label) -> Result<Option<Vec<u8>>, AllocError>
        requires { number_of kind.now ≡ self.now.kind }
        ensures { IfOk result (λ text. option_map (λ v. v.items) text ≡ writes kind.now label.now) }
    {
        (self.write)(kind, label)
    }
}

/// The codecs of the four kinds.
#[derive(Drop)]
pub struct Codecs {
    calipso: Codec,
    text: Codec,
    name: Codec,
    long: Codec,
    ghost numbers: { (calipso.kind ≡ 0) × (text.kind ≡ 1) × (name.kind ≡ 2) × (long.kind ≡ 3) },
}

impl Codecs {
    /// The codecs of the kinds 0, 1, 2 and 3, in this order.
    pub fn new(calipso: Codec, text: Codec, name: Codec, long: Codec) -> Codecs
        requires calipso { calipso.kind ≡ 0 }
        requires text { text.kind ≡ 1 }
        requires name { name.kind ≡ 2 }
        requires long { long.kind ≡ 3 }
    {
        Codecs {
            calipso,
            text,
            name,
            long,
        }
    }

    fn of(&self, kind: &Kind) -> &Codec
        ensures { number_of kind.now ≡ result.now.kind }
    {
        match kind {
            Kind::Calipso => &self.calipso,
            Kind::Text { doi: _ } => &self.text,
            Kind::Name { rows: _ } => &self.name,
            Kind::Long => &self.long,
        }
    }

    /// The label that some bytes spell in a format of the given kind.
    ///
    /// # Errors
    ///
    /// `AllocError` where the codec finds no memory.
    pub fn read(&self, kind: &Kind, bytes: &[u8]) -> Result<Option<Label>, AllocError>
        ensures { IfOk result (λ label. label ≡ reads kind.now bytes.now) }
    {
        self.of(kind).read(kind, bytes)
    }

    /// The bytes that spell a label in a format of the given kind.
    ///
    /// # Errors
    ///
    /// `AllocError` where the codec finds no memory.
    pub fn write(&self, kind: &Kind, label: &Label) -> Result<Option<Vec<u8>>, AllocError>
        ensures { IfOk result (λ text. option_map (λ v. v.items) text ≡ writes kind.now label.now) }
    {
        self.of(kind).write(kind, label)
    }
}
