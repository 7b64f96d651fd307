//! Labels, their bodies (RFC 5570 section 5) and levels.
use lnfs_calipso::{Label, LabelError, Lattice, LatticeError, Level, read_label, write_label};
use std::alloc::{AllocError, Global};
use std::process::Abort;
use std::test::Fail;

const LAST_COMPARTMENT: &[u8] =
    b"\x00\x00\x00\x01\x08\x03\x00\x00\x00\x00\x00\x00\x00\x00\x00\x00\x00\x00\x00\x00\x00\x00\x00\x00\x00\x00\x00\x00\x00\x00\x00\x00\x00\x00\x00\x00\x00\x01";

/// Bodies, each with the sensitivity and the compartments of its label.
const BODIES: &[(&[u8], u8, &[u16])] = &[
    (b"\x00\x00\x00\x01\x00\x00", 0, &[]),
    (b"\x00\x00\x00\x01\x01\x01\x80\x00\x00\x00", 1, &[0]),
    (
        b"\x00\x00\x00\x01\x01\x03\xe4\x00\x00\x00",
        3,
        &[5, 2, 0, 1],
    ),
    (LAST_COMPARTMENT, 3, &[255]),
];

/// What is almost a body.
const NO_BODIES: &[&[u8]] = &[
    b"",
    b"\x00\x00\x00\x01\x00",
    b"\x00\x00\x00\x01\x00\x00\x00",
    b"\x00\x00\x00\x01\x01\x03\x00\x00\x00\x00",
    b"\x00\x00\x00\x01\x01\x03\xe4\x00\x00",
];

/// Whether the bytes are read as a label, and written of it.
fn is_body(alloc: Global, bytes: &[u8], label: &Label) -> Result<bool, AllocError> {
    let Some(read) = read_label(alloc, bytes)? else {
        return Ok(false);
    };
    if read != *label {
        return Ok(false);
    }
    Ok(write_label(alloc, label)?.as_slice() == bytes)
}

#[test]
fn bodies_are_read_and_written(rt: HostRuntime) -> Result<(), Fail> {
    let alloc = rt.alloc();
    for (bytes, sens, comps) in BODIES {
        let label = Label::new(alloc, 1, *sens, comps)?;
        assert!(rt; is_body(alloc, bytes, &label)?, "{bytes:?}");
    }
    Ok(())
}

#[test]
fn what_is_almost_a_body_is_refused(rt: HostRuntime) -> Result<(), AllocError> {
    for bytes in NO_BODIES {
        assert!(rt; read_label(rt.alloc(), bytes)?.is_none(), "{bytes:?}");
    }
    Ok(())
}

/// The head of a body, a number of zero bytes, and its end.
fn sparse(alloc: Global, head: &[u8], zeros: usize, end: &[u8]) -> Result<Vec<u8>, AllocError> {
    let mut body = Vec::from_slice(alloc, head)?;
    let len = body.len();
    body.resize(len.saturating_add(zeros), 0)?;
    body.extend_from_slice(end)?;
    Ok(body)
}

/// Heads, zero bytes and ends, with the only compartment of the label.
const SPARSE: &[(&[u8], usize, &[u8], u16)] = &[
    (b"\x00\x00\x00\x01\x08\x00", 31, b"\x01", 255),
    (b"\x00\x00\x00\x01\x09\x00", 32, b"\x80\x00\x00\x00", 256),
    (b"\x00\x00\x00\x01\x3c\x00", 239, b"\x01", 1_919),
];

/// 61 words, a last word of zero, and bytes behind the last word.
const NOT_SPARSE: &[(&[u8], usize, &[u8])] = &[
    (b"\x00\x00\x00\x01\x3d\x00", 243, b"\x01"),
    (b"\x00\x00\x00\x01\x3c\x00", 235, b"\x01\x00\x00\x00\x00"),
    (b"\x00\x00\x00\x01\x3c\x00", 239, b"\x01\x00"),
];

#[test]
fn bodies_of_many_words(rt: HostRuntime) -> Result<(), Fail> {
    let alloc = rt.alloc();
    for (head, zeros, end, comp) in SPARSE {
        let body = sparse(alloc, head, *zeros, end)?;
        let label = Label::new(alloc, 1, 0, &[*comp])?;
        assert!(rt; is_body(alloc, &body, &label)?, "{comp}");
        assert!(rt; label.has(*comp) && !label.has(0));
    }
    for (head, zeros, end) in NOT_SPARSE {
        let body = sparse(alloc, head, *zeros, end)?;
        assert!(rt; read_label(alloc, &body)?.is_none(), "{zeros}");
    }
    Ok(())
}

#[test]
fn compartment_1920_is_refused(rt: HostRuntime) {
    let label = Label::new(rt.alloc(), 1, 0, &[3, 1_920]);
    assert!(rt; label.err() == Some(LabelError::BadCompartment));
}

/// Two levels beside each other, between a bottom and a top.
pub fn four_levels(alloc: Global, bottom: Label, top: Label) -> Result<Lattice, Fail> {
    let one = Label::new(alloc, 1, 1, &[0])?;
    let two = Label::new(alloc, 1, 1, &[1])?;
    Ok(Lattice::new(alloc, &[bottom, one, two, top])?)
}

/// Whether the first of two levels dominates the second.
const DOMINATING: &[(u32, u32, bool)] = &[
    (3, 1, true),
    (3, 2, true),
    (1, 0, true),
    (1, 2, false),
    (2, 1, false),
    (0, 3, false),
];

fn expect_dominating(rt: &impl Abort, lattice: &Lattice) {
    for (a, b, dominates) in DOMINATING {
        assert!(rt; lattice.holds(Level(*a)) && lattice.holds(Level(*b)));
        assert!(rt; lattice.dom(Level(*a), Level(*b)) == *dominates, "{a} {b}");
    }
}

fn expect_found(rt: &impl Abort, lattice: &Lattice, top: &Label, other_doi: &Label) {
    assert!(rt; lattice.len() == 4);
    assert!(rt; lattice.find(top) == Some(Level(3)));
    assert!(rt; lattice.find(other_doi).is_none());
}

#[test]
fn levels_of_a_site(rt: HostRuntime) -> Result<(), Fail> {
    let alloc = rt.alloc();
    let top = Label::new(alloc, 1, 3, &[0, 1, 2, 5])?;
    let lattice = four_levels(alloc, Label::bare(alloc, 1, 0), top.clone()?)?;
    expect_dominating(&rt, &lattice);
    let other_doi = Label::new(alloc, 2, 3, &[0, 1, 2, 5])?;
    expect_found(&rt, &lattice, &top, &other_doi);
    Ok(())
}

/// Why labels are no levels.
fn refusal(alloc: Global, labels: &[Label]) -> Option<LatticeError> {
    Lattice::new(alloc, labels).err()
}

#[test]
fn labels_that_are_no_levels(rt: HostRuntime) -> Result<(), Fail> {
    let alloc = rt.alloc();
    let bottom = Label::bare(alloc, 1, 0);
    let one = Label::new(alloc, 1, 1, &[0])?;
    let twice = refusal(alloc, &[bottom.clone()?, one, bottom.clone()?]);
    assert!(rt; twice == Some(LatticeError::Twice { index: 2 }));
    let other_doi = Label::new(alloc, 2, 3, &[0, 1, 2, 5])?;
    let apart = refusal(alloc, &[bottom, other_doi]);
    assert!(rt; apart == Some(LatticeError::NoBottom { index: 1 }));
    let none = refusal(alloc, &[]);
    assert!(rt; none == Some(LatticeError::NoBottom { index: 0 }));
    Ok(())
}

/// Whether the first of two levels dominates the second, where level 0 is decreed to be below all.
const DECREED: &[(u32, u32, bool)] = &[
    (0, 0, true),
    (0, 1, false),
    (0, 2, false),
    (1, 0, true),
    (1, 1, true),
    (1, 2, false),
    (2, 0, true),
    (2, 1, false),
];

#[test]
fn a_bottom_that_is_decreed(rt: HostRuntime) -> Result<(), Fail> {
    let alloc = rt.alloc();
    // level 0 has the label that dominates the label of level 1, and level 2 is of another domain
    let labels = [
        Label::new(alloc, 1, 5, &[0])?,
        Label::bare(alloc, 1, 0),
        Label::new(alloc, 2, 7, &[0])?,
    ];
    assert!(rt; labels[0].dominates(&labels[1]) && !labels[2].dominates(&labels[1]));
    let lattice = Lattice::decreed(alloc, &labels)?;
    for (a, b, dominates) in DECREED {
        assert!(rt; lattice.holds(Level(*a)) && lattice.holds(Level(*b)));
        assert!(rt; lattice.dom(Level(*a), Level(*b)) == *dominates, "{a} {b}");
    }
    let none = Lattice::decreed(alloc, &[]).err();
    assert!(rt; none == Some(LatticeError::NoBottom { index: 0 }));
    Ok(())
}
