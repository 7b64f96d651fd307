//! Recordings laid out by hand, read and written.
ghost use Rattle.std.specs.Prelude.{◌<◌};

use lnfs_traffic::{TrafficError, TrafficReader, read_traffic, write_traffic};
use lnfs_types::{Event, Moment, Octets};
use std::alloc::{AllocError, Global};
use std::test::Fail;

/// Two events: class 1, link 2, 3 seconds and 4 nanoseconds, with a record of 5 bytes; and class 7,
/// link 0, at the last moment, with an empty record.
const TWO: &[u8; 61] = b"LNFSTRC1\
\0\0\0\x01\0\0\0\x02\0\0\0\0\0\0\0\x03\0\0\0\x04\0\0\0\x05abcde\
\0\0\0\x07\0\0\0\0\x7f\xff\xff\xff\xff\xff\xff\xff\x3b\x9a\xc9\xff\0\0\0\0";

#[test]
fn two_events(rt: HostRuntime) -> Result<(), Fail> {
    let events = read_traffic(rt.alloc(), TWO.as_slice())?;
    assert_eq!(rt; events.len(), 2);
    assert_eq!(rt; (events[0].class, events[0].link), (1, 2));
    assert_eq!(rt; events[0].moment, Moment { secs: 3, nanos: 4 });
    assert_eq!(rt; events[0].message.as_slice(), b"abcde".as_slice());
    assert_eq!(rt; (events[1].class, events[1].link), (7, 0));
    assert_eq!(rt; events[1].message.len(), 0);
    Ok(())
}

#[test]
fn events_are_written(rt: HostRuntime) -> Result<(), AllocError> {
    let events = vec![in rt.alloc();
        Event {
            class: 1,
            link: 2,
            moment: Moment { secs: 3, nanos: 4 },
            message: Octets::from_slice(rt.alloc(), b"abcde")?,
        },
        Event {
            class: 7,
            link: 0,
            moment: Moment {
                secs: 0x7fff_ffff_ffff_ffff,
                nanos: 999_999_999,
            },
            message: Octets::from_slice(rt.alloc(), b"")?,
        },
    ]?;
    let bytes = write_traffic(rt.alloc(), &events)?;
    assert!(rt; bytes.as_slice() == TWO.as_slice(), "the recording");
    Ok(())
}

/// The length of the longest front that is a recording, of bytes with one byte changed.
#[test]
fn damage(rt: HostRuntime) {
    let cases: [(usize, usize, u8, u64); 8] = [
        (0, 0, b'L', 0),
        (7, 0, b'L', 0),
        (61, 7, b'2', 0),
        (9, 0, b'L', 8),
        (60, 0, b'L', 37),
        (61, 24, 0x3c, 8),
        (61, 45, 0x80, 37),
        (61, 53, 0xff, 37),
    ];
    for (size, place, byte, at) in cases {
        let mut bytes = *TWO;
        bytes[place] = byte;
        let (front, _) = bytes.split_at(size);
        let got = read_traffic(rt.alloc(), front);
        assert!(rt;
            got.err() == Some(TrafficError::Damaged { at }),
            "{size} bytes, {place}"
        );
    }
}

/// The events that a reader gives of the first `size` bytes of the two, in pieces of `length` bytes,
/// and what it answers at the end.
fn read_in_pieces(
    alloc: Global,
    bytes: &[u8],
    length: usize,
) -> Result<(usize, Option<TrafficError>), AllocError>
    requires { 0 < length }
{
    let mut reader = TrafficReader::new(alloc);
    let mut count = 0usize;
    for piece in bytes.chunks(length) {
        reader.feed(piece)?;
        for _ in 0..3 {
            match reader.next() {
                Ok(Some(event)) => count = count.saturating_add(usize::from(event.fits())),
                Ok(None) => break,
                Err(error) => return Ok((count, Some(error))),
            }
        }
    }
    Ok((count, reader.finish().err()))
}

#[test]
fn pieces_of_any_length(rt: HostRuntime) -> Result<(), AllocError> {
    // a byte at a time, pieces that end within the events, and all at once
    for length in [1, 5, 8, 20, 36, 61, 100] {
        let got = read_in_pieces(rt.alloc(), TWO.as_slice(), length)?;
        assert!(rt; got == (2, None), "whole, in pieces of {length}");
        let got = read_in_pieces(rt.alloc(), &TWO[..60], length)?;
        let cut = Some(TrafficError::Damaged { at: 37 });
        assert!(rt; got == (1, cut), "cut, in pieces of {length}");
        let mut bytes = *TWO;
        bytes[53] = 0xff;
        let got = read_in_pieces(rt.alloc(), bytes.as_slice(), length)?;
        assert!(rt; got == (1, cut), "nanoseconds, in pieces of {length}");
    }
    let got = read_in_pieces(rt.alloc(), b"LNFX", 4)?;
    let none = Some(TrafficError::Damaged { at: 0 });
    assert!(rt; got == (0, none), "no beginning, before all of it is there");
    let empty = TrafficReader::new(rt.alloc()).finish();
    assert!(rt; empty.err() == none, "nothing was fed");
    Ok(())
}
