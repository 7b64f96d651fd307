//! A policy, and calls laid out by hand, in words.
use lnfs_format::Codecs;
use lnfs_policy::{Policy, read_policy};
use lnfs_words::bytes_of;
use lnfs_xdr::XdrWriter;
use std::alloc::{AllocError, Global};
use std::test::Fail;

/// What stands before the levels.
pub const ENFORCING: &str = "lnfs-policy 1\nmode enforcing\n";

pub const LIMITED: &str = "lnfs-policy 1\nmode limited\n";

/// Level 3 dominates all, and levels 1 and 2 don't compare. Parent 5 may assert up to level 1, parent 6 level 0 alone.
const LINES: &str = "level 0 1 0 -
level 1 1 1 c0
level 2 1 1 c1
level 3 1 3 c0.c2,c5
format 101 1 calipso
format 102 1 text
format 103 0 name
name 103 0 0 6f70656e
parent 5 0505050505050505050505050505050505050505050505050505050505050505 1
parent 6 0606060606060606060606060606060606060606060606060606060606060606 0
parent 7 0101010101010101010101010101010101010101010101010101010101010101 3
guest 0 * 0
guest 1 100 1
guest 1 200 2
guest 1 300 3
";

/// The policy of these lines, in a mode.
pub fn policy(alloc: Global, codecs: &Codecs, mode: &str) -> Result<Policy, Fail> {
    let text = format!(in alloc; "{mode}{LINES}")?;
    Ok(read_policy(alloc, text.as_bytes(), codecs)?)
}

/// A call by RPCSEC_GSS.
#[derive(Drop)]
pub struct Draft {
    pub proc: u32,
    pub version: u32,
    pub procedure: u32,
    pub seq: u32,
    pub service: u32,
    pub handle: Vec<u8>,
    /// What follows the handle.
    pub behind: Vec<u8>,
    /// The flavor of the verifier.
    pub flavor: u32,
    /// By whom the verifier is signed, and of how many bytes more than there are.
    pub signer: u32,
    pub longer: u32,
    /// The signed body: its sequence number, what follows that, by whom it is signed, and of how many bytes more than there
    /// are, and what follows the signature.
    pub body_seq: u32,
    pub content: Vec<u8>,
    pub body_signer: u32,
    pub body_longer: u32,
    pub body_behind: Vec<u8>,
    /// The arguments, where they are no such body.
    pub plain: Option<Vec<u8>>,
}

/// The bytes that a cell spells: a text between `'`, or digits in hex.
pub fn bytes_in(alloc: Global, cell: &str) -> Result<Vec<u8>, Fail> {
    if let Some(text) = cell.strip_prefix('\'') {
        return Ok(Vec::from_slice(alloc, text.trim_end_matches('\'').as_bytes())?);
    }
    Ok(bytes_of(alloc, cell.as_bytes())?.ok_or("no bytes")?)
}

/// The number that a cell spells.
pub fn number_in(cell: &str) -> Result<u32, Fail> {
    Ok(cell.parse::<u32>().ok().ok_or("no number")?)
}

/// The handles of parent 7, and of the context (7, 3, 2).
const PARENT: &str = "00000007";

const CONTEXT: &str = "00000007000000030000000000000002";

/// The arguments of a CREATE that asserts level 3 in the format 101.
const TOP: &str =
    "0000000000000000000000010000000000000065000000010000000a000000010103e40000000000";

impl Draft {
    /// A call of a version, with no service and no arguments, which parent 7 signs.
    fn new(
        alloc: Global,
        proc: u32,
        procedure: u32,
        seq: u32,
        handle: &str,
    ) -> Result<Draft, Fail> {
        Ok(Draft {
            proc,
            version: 3,
            procedure,
            seq,
            service: 2,
            handle: bytes_in(alloc, handle)?,
            behind: Vec::new(alloc),
            flavor: 6,
            signer: 7,
            longer: 0,
            body_seq: seq,
            content: Vec::new(alloc),
            body_signer: 7,
            body_longer: 0,
            body_behind: Vec::new(alloc),
            plain: None,
        })
    }

    /// A CREATE under parent 7 that is taken.
    pub fn create(alloc: Global) -> Result<Draft, Fail> {
        let mut draft = Draft::new(alloc, 0, 5, 9, PARENT)?;
        draft.content = bytes_in(alloc, TOP)?;
        Ok(draft)
    }

    /// A call in the context (7, 3, 2).
    pub fn data(alloc: Global) -> Result<Draft, Fail> {
        let mut draft = Draft::new(alloc, 1, 0, 10, CONTEXT)?;
        draft.content = bytes_in(alloc, "01020304")?;
        Ok(draft)
    }

    /// The end of the context (7, 3, 2).
    pub fn destroy(alloc: Global) -> Result<Draft, Fail> {
        let mut draft = Draft::new(alloc, 0, 3, 11, CONTEXT)?;
        draft.service = 0;
        draft.plain = Some(Vec::new(alloc));
        Ok(draft)
    }

    /// Sets a number of the call.
    fn set_number(&mut self, name: &str, number: u32) -> Result<(), Fail> {
        match name {
            "proc" => self.proc = number,
            "version" => self.version = number,
            "procedure" => self.procedure = number,
            "seq" => self.seq = number,
            "service" => self.service = number,
            "flavor" => self.flavor = number,
            "signer" => self.signer = number,
            "longer" => self.longer = number,
            "body_seq" => self.body_seq = number,
            "body_signer" => self.body_signer = number,
            "body_longer" => self.body_longer = number,
            _ => return Err(Fail::from("no part of a call")),
        }
        Ok(())
    }

    /// Sets a part of the call to what a cell spells.
    pub fn set(&mut self, alloc: Global, name: &str, cell: &str) -> Result<(), Fail> {
        match name {
            "handle" => self.handle = bytes_in(alloc, cell)?,
            "behind" => self.behind = bytes_in(alloc, cell)?,
            "content" => self.content = bytes_in(alloc, cell)?,
            "body_behind" => self.body_behind = bytes_in(alloc, cell)?,
            "plain" => self.plain = Some(bytes_in(alloc, cell)?),
            _ => self.set_number(name, number_in(cell)?)?,
        }
        Ok(())
    }
}

/// A signature: the number of the parent, the length of what is covered, and zeros.
pub fn mic(signer: u32, length: u32) -> [u8; 32] {
    let [a, b, c, d] = signer.to_be_bytes();
    let [e, f, g, h] = length.to_be_bytes();
    [
        a, b, c, d, e, f, g, h, 0, 0, 0, 0, 0, 0, 0, 0, 0, 0, 0, 0, 0, 0, 0, 0, 0, 0, 0, 0, 0, 0,
        0, 0,
    ]
}

/// Appends words.
pub fn put_words(out: &mut XdrWriter, words: &[u32]) -> Result<(), AllocError> {
    for word in words {
        out.u32(*word)?;
    }
    Ok(())
}

/// The body of a credential.
fn credential(alloc: Global, draft: &Draft) -> Result<Vec<u8>, Fail> {
    let mut out = XdrWriter::new(alloc);
    put_words(
        &mut out,
        &[draft.version, draft.procedure, draft.seq, draft.service],
    )?;
    out.u32((draft.handle.len() % 65_536) as u32)?;
    out.fixed(&draft.handle)?;
    out.raw(&draft.behind)?;
    Ok(out.into_bytes())
}

/// The bytes from the transaction through the credential, of the flavor 6.
pub fn header(alloc: Global, draft: &Draft) -> Result<Vec<u8>, Fail> {
    let credential = credential(alloc, draft)?;
    let mut out = XdrWriter::new(alloc);
    put_words(&mut out, &[0x01020304, 0, 2, 100003, 4, draft.proc, 6])?;
    out.u32((credential.len() % 65_536) as u32)?;
    out.fixed(&credential)?;
    Ok(out.into_bytes())
}

/// The arguments of a call.
fn put_args(alloc: Global, out: &mut XdrWriter, draft: &Draft) -> Result<(), Fail> {
    if let Some(plain) = &draft.plain {
        out.raw(plain)?;
        return Ok(());
    }
    let mut databody = XdrWriter::new(alloc);
    databody.u32(draft.body_seq)?;
    databody.raw(&draft.content)?;
    let length = (databody.mark() % 65_536) as u32;
    out.u32(length)?;
    out.fixed(&databody.into_bytes())?;
    out.u32(32)?;
    out.raw(&mic(draft.body_signer, length + draft.body_longer % 65_536))?;
    out.raw(&draft.body_behind)?;
    Ok(())
}

/// The record of a call.
pub fn record_of(alloc: Global, draft: &Draft) -> Result<Vec<u8>, Fail> {
    let header = header(alloc, draft)?;
    let length = (header.len() % 65_536) as u32;
    let mut out = XdrWriter::new(alloc);
    out.raw(&header)?;
    out.u32(draft.flavor)?;
    out.u32(32)?;
    out.raw(&mic(draft.signer, length + draft.longer % 65_536))?;
    put_args(alloc, &mut out, draft)?;
    Ok(out.into_bytes())
}
