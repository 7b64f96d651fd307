//! What reads and writes the labels of the four kinds of format. It makes stored closures, which a function outside tests
//! may not hand on, so each crate of tests that needs it has its own.
ghost use Rattle.std.specs.Prelude.{◌≡◌, IfOk};
ghost use Rattle.std.specs.Option.{option_map};
ghost use Rattle.lnfs_format.specs.Kinds.{reads, writes};

use lnfs_calipso::Label;
use lnfs_format::{Codec, Codecs, Kind, read_kind, write_kind};
use std::alloc::{AllocError, Global};

/// The codec of a kind's number.
fn codec_of(alloc: Global, number: u32) -> Result<Codec, AllocError>
    ensures { IfOk result (λ codec. codec.kind ≡ number) }
{
    let read = move |kind: &Kind, bytes: &[u8]|
        ensures { IfOk result (λ label. label ≡ reads kind.now bytes.now) }
    { read_kind(alloc, kind, bytes) };
    let write = move |kind: &Kind, label: &Label|
        ensures { IfOk result (λ text. option_map (λ v. v.items) text ≡ writes kind.now label.now) }
    { write_kind(alloc, kind, label) };
    let read = Box::new(alloc, read)?;
    Ok(Codec::new(number, read, Box::new(alloc, write)?))
}

/// The codecs of all four kinds.
pub fn codecs_of(alloc: Global) -> Result<Codecs, AllocError> {
    let calipso = codec_of(alloc, 0)?;
    let text = codec_of(alloc, 1)?;
    let name = codec_of(alloc, 2)?;
    let long = codec_of(alloc, 3)?;
    Ok(Codecs::new(calipso, text, name, long))
}
