//! Cases as lines of text, whose cells stand between bars.
//!
//! Words spell bytes: a number spells its 32 bits, `0x` and hex digits the bytes of these, and a text
//! between `'` its own. The name of a part stands for the part's words.
use crate::flaw::{Flaw, demand};
use lnfs_words::{bytes_of, number};
use std::alloc::{AllocError, Global};

/// Words by name, with RFC 5531 for calls and replies and RFC 8881 sections 18.35 for EXCHANGE_ID,
/// 18.36 for CREATE_SESSION and 18.46 for SEQUENCE.
///
/// CALL is a call of a COMPOUND up to its credential, and CALL_2 one under another xid. SYS is a
/// credential by AUTH_SYS of user 0 and an empty verifier, and SYS_5 and SYS_300 are those of other
/// users, and SYS_000 is SYS. EXCHANGE is a COMPOUND of one EXCHANGE_ID up to the bytes of an owner of two, and REST is
/// what stands after these bytes. CREATE is a COMPOUND of one CREATE_SESSION up to the client id, of
/// two words, and SEQUENCE that operation with the first session of level 0, up to the sequence, and with a number
/// behind it that of another level. ALL is the bitmap of all attributes, and SETTABLE of those that can be set.
///
/// ONE, TOP and PUT_F are a PUTFH of `one`, of `top`, and of the first node that level 0 makes. Of OPEN (section 18.16),
/// BY_O and BY_P are a client id and an owner; PLAIN, GUARDED and SOLE make a file without attributes, unchecked,
/// guarded and by a verifier, and SIZED makes one of the size 0; CALLED_F claims the name `f`; and MAKE_F is all of an
/// OPEN that makes it, for reading and writing. ANON, BYPASS and CURRENT are the state ids with a meaning of their own
/// (section 8.2.3), and ID_1 that of the first open of level 0. SIX is a WRITE of six bytes under it. SIZE is an
/// attribute list of a size up to its low word, and LABEL and a number behind it one of the label of a level.
///
/// ACCEPTED is a reply up to its accept_stat, ACCEPTED_2 the one to CALL_2, and DENIED one up to its
/// auth_stat. EXCHANGED is the reply to EXCHANGE up to the client id, of two words, and SERVER is what
/// stands after it. CREATED is the reply to CREATE up to the session id, of four words, and CHANNEL a
/// channel with all that is granted. SEQUENCED is the result of SEQUENCE up to the sequence, and SLOTS
/// is what stands after the slot where the session has 16.
///
/// MADE_F is the result of MAKE_F in the root, and WROTE_6 that of SIX. Of a result of OPEN, KEPT is what stands after the
/// state id where the root has the change number 2 and nothing is set, and HELD where no name was claimed. CLOSED is
/// the state id that CLOSE tells, and LABELLED the bitmap of a label.
///
/// Of RPCSEC_GSS version 3 (RFC 2203 section 5 and RFC 7861 section 2, in this project's own layout), NULL is a call of
/// that procedure up to its credential, and BY_7 the credential of a CREATE under parent 7, of the sequence number 9. What
/// follows is signed by parent 7 so that it can be told by hand: VERF and CHECKSUM are a verifier and a checksum up to the
/// length of what they cover, and ZEROS stands behind that. CREATE_7 is the whole CREATE up to its arguments, and ARGS_3
/// are those that assert level 3; ASSERT is an assertion up to its format, and with a number behind it the whole one of a
/// level, as it stands in arguments and results. DATA and DESTROY, of the sequence numbers 10 and 11, go up to the handle
/// of a context, of four words; DATA_1 and DESTROY_1 are those in the first context of level 3, up to the arguments; BODY
/// is EXCHANGE for the owner `c1` as the signed arguments of a DATA. SIGNED_56 and SIGNED_68 are replies up to their
/// accept_stat, to a CREATE and to the others, whose bytes from the xid through the credential are as many; KEYED_56 and
/// KEYED_68 are those to CREATE_7 and DATA_1 where they are signed by digests under a secret of 32 bytes of 1.
const PARTS: &str = "
CALL 1 0 2 100003 4 1
CALL_2 2 0 2 100003 4 1
SYS 1 24 0 1 0x61000000 0 0 0 0 0
SYS_5 1 24 0 1 0x61000000 5 0 0 0 0
SYS_000 1 24 0 1 0x61000000 0 0 0 0 0
SYS_100 1 24 0 1 0x61000000 100 0 0 0 0
SYS_200 1 24 0 1 0x61000000 200 0 0 0 0
SYS_300 1 24 0 1 0x61000000 300 0 0 0 0
EXCHANGE 0 2 1 42 0 0 2
REST 0x0000 0 0 0
CREATE 0 2 1 43
SEQUENCE 53 0 0 1 0
SEQUENCE_0 53 0 0 1 0
SEQUENCE_1 53 1 0 1 0
SEQUENCE_2 53 2 0 1 0
SEQUENCE_3 53 3 0 1 0
ACCEPTED 1 1 0 0 0
ACCEPTED_2 2 1 0 0 0
DENIED 1 1 1 1
EXCHANGED 1 1 0 0 0 0 0 0 1 42 0
SERVER 1 0x00010000 0 0 0 12 'labelled-nfs' 12 'labelled-nfs' 0
CREATED 1 1 0 0 0 0 0 0 1 43 0
CHANNEL 0 65536 65536 65536 32 16 0
SEQUENCED 53 0 0 0 1 0
SEQUENCED_0 53 0 0 0 1 0
SEQUENCED_1 53 0 1 0 1 0
SEQUENCED_2 53 0 2 0 1 0
SEQUENCED_3 53 0 3 0 1 0
SLOTS 15 15 0
ALL 3 0x00180fff 0x00b0817a 0x00010800
SETTABLE 3 0x00000010 0x00000002 0x00010000
ONE 22 12 0 0 2
TOP 22 12 0 0 4
PUT_F 22 12 0 0 5
BY_O 0 0 1 'o' 0x000000
BY_P 0 0 1 'p' 0x000000
PLAIN 1 0 0 0
GUARDED 1 1 0 0
SOLE 1 3 7 9 0 0
SIZED 1 0 1 16 8 0 0
CALLED_F 0 1 'f' 0x000000
MAKE_F 18 0 3 0 0 0 1 'o' 0x000000 1 0 0 0 0 1 'f' 0x000000
MADE_F 18 0 1 0 0 1 1 0 1 0 2 4 0 0
KEPT 1 0 2 0 2 4 0 0
HELD 1 0 0 0 0 4 0 0
ANON 0 0 0 0
BYPASS 0xffffffffffffffffffffffffffffffff
CURRENT 1 0 0 0
ID_1 1 0 0 1
CLOSED 4294967295 0 0 0
SIX 38 1 0 0 1 0 0 2 6 'abcdef' 0x0000
WROTE_6 38 0 6 2 0 0
SIZE 1 16 8 0
LABELLED 3 0 0 65536
LABEL_0 3 0 0 65536 20 101 1 6 0x000000010000 0x0000
LABEL_1 3 0 0 65536 24 101 1 10 0x00000001010180000000 0x0000
LABEL_2 3 0 0 65536 24 101 1 10 0x00000001010140000000 0x0000
LABEL_3 3 0 0 65536 24 101 1 10 0x000000010103e4000000 0x0000
NULL 1 0 2 100003 4 0
BY_7 6 24 3 5 9 2 4 7
VERF 6 32 7
CHECKSUM 32 7
ZEROS 0 0 0 0 0 0
CREATE_7 1 0 2 100003 4 0 6 24 3 5 9 2 4 7 6 32 7 56 0 0 0 0 0 0
ARGS_3 44 9 0 0 1 0 101 1 10 0x000000010103e4000000 0x0000 32 7 44 0 0 0 0 0 0
ASSERT 0 0 1 0
ASSERT_0 0 0 1 0 101 1 6 0x000000010000 0x0000
ASSERT_3 0 0 1 0 101 1 10 0x000000010103e4000000 0x0000
DATA 1 0 2 100003 4 1 6 36 3 0 10 2 16
DATA_1 1 0 2 100003 4 1 6 36 3 0 10 2 16 7 3 0 1 6 32 7 68 0 0 0 0 0 0
BODY 48 10 0 2 1 42 0 0 2 'c1' 0x0000 0 0 0 32 7 48 0 0 0 0 0 0
DESTROY 1 0 2 100003 4 0 6 36 3 3 11 0 16
DESTROY_1 1 0 2 100003 4 0 6 36 3 3 11 0 16 7 3 0 1 6 32 7 68 0 0 0 0 0 0
SIGNED_56 1 1 0 6 32 7 56 0 0 0 0 0 0
SIGNED_68 1 1 0 6 32 7 68 0 0 0 0 0 0
KEYED_56 1 1 0 6 32 0x7f352d68779129ed6129bfe2bafd4473cc5d63d145cde50dec1203f14c50c394
KEYED_68 1 1 0 6 32 0x77c9dd59888cf19802177cd27ca6184e8766a68d313d2dd328fb294d4fc71bb0
";

/// What is due of a run: its status, and what the two streams get.
#[derive(Drop)]
pub struct Due {
    pub status: u8,
    pub out: Vec<u8>,
    pub lines: String,
}

/// The lines of a table that aren't empty.
pub fn rows_of<'a>(alloc: Global, table: &'a str) -> Result<Vec<&'a str>, AllocError> {
    let mut rows = Vec::new(alloc);
    for line in table.lines() {
        if !line.is_empty() {
            rows.push(line)?;
        }
    }
    Ok(rows)
}

/// The rows of a table, which has so many.
///
/// # Errors
///
/// A flaw that names the first row, where the table has more rows or fewer.
pub fn counted_rows<'a>(alloc: Global, table: &'a str, count: usize) -> Result<Vec<&'a str>, Flaw> {
    let rows = rows_of(alloc, table)?;
    let first = match rows.first() {
        Some(row) => *row,
        None => "",
    };
    demand(alloc, rows.len() == count, "rows", first)?;
    Ok(rows)
}

/// The cells of a row.
pub fn cells_of<'a>(alloc: Global, row: &'a str) -> Result<Vec<&'a str>, AllocError> {
    let mut cells = Vec::new(alloc);
    for cell in row.split('|') {
        cells.push(cell.trim())?;
    }
    Ok(cells)
}

/// The words of a part.
fn part(name: &str) -> Option<&'static str> {
    for line in PARTS.lines() {
        if let Some((first, words)) = line.split_once(' ') {
            if first == name {
                return Some(words);
            }
        }
    }
    None
}

/// Adds what a word spells that names no part, and tells whether it spells anything.
fn put_word(alloc: Global, bytes: &mut Vec<u8>, word: &str) -> Result<bool, AllocError> {
    if let Some(digits) = word.strip_prefix("0x") {
        let Some(spelled) = bytes_of(alloc, digits.as_bytes())? else {
            return Ok(false);
        };
        bytes.extend_from_slice(&spelled)?;
        return Ok(true);
    }
    if let Some(quoted) = word.strip_prefix('\'') {
        let Some(text) = quoted.strip_suffix('\'') else {
            return Ok(false);
        };
        bytes.extend_from_slice(text.as_bytes())?;
        return Ok(true);
    }
    let Some(value) = number(word.as_bytes()) else {
        return Ok(false);
    };
    bytes.extend_from_slice(&value.to_be_bytes())?;
    Ok(true)
}

/// Adds what words spell that name no parts, and tells whether each spells anything.
fn put_words(alloc: Global, bytes: &mut Vec<u8>, words: &str) -> Result<bool, AllocError> {
    for word in words.split_whitespace() {
        if !put_word(alloc, bytes, word)? {
            return Ok(false);
        }
    }
    Ok(true)
}

/// The bytes that words spell, where each can be read.
fn bytes_in(alloc: Global, words: &str) -> Result<Option<Vec<u8>>, AllocError> {
    let mut bytes = Vec::new(alloc);
    for word in words.split_whitespace() {
        // most words spell bytes, so that few are looked for among the parts
        if !put_word(alloc, &mut bytes, word)? {
            let Some(words) = part(word) else {
                return Ok(None);
            };
            if !put_words(alloc, &mut bytes, words)? {
                return Ok(None);
            }
        }
    }
    Ok(Some(bytes))
}

/// The number of bytes, as 32 bits.
fn size_of(bytes: &[u8]) -> u32 {
    u32::try_from(bytes.len()).unwrap_or(0)
}

/// The class of an event, its seconds, and its words.
fn class_of(event: &str) -> (&str, &str, &str) {
    match event.strip_prefix('@') {
        Some(rest) => {
            let (class, words) = rest.split_once(' ').unwrap_or((rest, ""));
            let (class, seconds) = class.split_once('.').unwrap_or((class, "100"));
            (class, seconds, words)
        }
        None => ("0", "100", event),
    }
}

/// Adds the words of an event or a reply behind those of others.
pub fn put(cell: &mut String, words: &str) -> Result<(), AllocError> {
    if words.is_empty() {
        return Ok(());
    }
    if !cell.is_empty() {
        cell.push_str(" / ")?;
    }
    cell.push_str(words)
}

/// The recording of the events between slashes, where each can be read. An event is of class 0 where
/// no `@` and number stands before its words, and of 100 seconds where behind this no dot and another stand.
pub fn recording_of(alloc: Global, events: &str) -> Result<Option<Vec<u8>>, AllocError> {
    let mut traffic = Vec::from_slice(alloc, b"LNFSTRC1")?;
    for event in events.split('/') {
        let (class, seconds, words) = class_of(event.trim());
        let Some(class) = number(class.as_bytes()) else {
            return Ok(None);
        };
        let Some(seconds) = number(seconds.as_bytes()) else {
            return Ok(None);
        };
        let Some(record) = bytes_in(alloc, words)? else {
            return Ok(None);
        };
        for value in [class, 0, 0, seconds, 0, size_of(&record)] {
            traffic.extend_from_slice(&value.to_be_bytes())?;
        }
        traffic.extend_from_slice(&record)?;
    }
    Ok(Some(traffic))
}

/// The frames of the replies between slashes, where each can be read; an empty cell has none.
pub fn frames_of(alloc: Global, replies: &str) -> Result<Option<Vec<u8>>, AllocError> {
    let mut frames = Vec::new(alloc);
    if replies.is_empty() {
        return Ok(Some(frames));
    }
    for reply in replies.split('/') {
        let Some(record) = bytes_in(alloc, reply)? else {
            return Ok(None);
        };
        let head = 0x8000_0000 | size_of(&record);
        frames.extend_from_slice(&head.to_be_bytes())?;
        frames.extend_from_slice(&record)?;
    }
    Ok(Some(frames))
}

/// The lines that stand in cells; an empty cell has none.
pub fn lines_in(alloc: Global, cells: &[&str]) -> Result<String, AllocError> {
    let mut lines = String::new(alloc);
    for cell in cells {
        if !cell.is_empty() {
            lines.push_str(cell)?;
            lines.push_str("\n")?;
        }
    }
    Ok(lines)
}
