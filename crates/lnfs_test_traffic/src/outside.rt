//! What no clause says: that calls succeed with ample memory, and what the real ends do.
ghost use Rattle.std.specs.Prelude.{◌≡◌, [], IfOk};
ghost use Rattle.lnfs_outside.specs.Deals.{IsUnused};

use lnfs_outside::{
    CalmFiles, CalmSink, CalmSource, Clock, DiskFiles, Failed, Files, Link, MemClock, MemDeal,
    MemFile, MemFiles, MemLink, MemNet, MemSink, MemSource, Net, Sink, Source, StdClock, StdSink,
    TcpLink, TcpNet, put_all,
};
use lnfs_types::{Moment, Octets, Text};
use std::alloc::{AllocError, Global};
use std::net::{TcpListener, TcpStream};
use std::test::Fail;
use std::thread;

fn file(alloc: Global, name: &str, content: &[u8]) -> Result<MemFile, AllocError> {
    Ok(MemFile {
        name: Text::copy_of(alloc, name)?,
        content: Octets::from_slice(alloc, content)?,
    })
}

fn two_of_one_name(alloc: Global) -> Result<Vec<MemFile>, AllocError> {
    Ok(vec![in alloc; file(alloc, "a", b"first")?, file(alloc, "a", b"second")?]?)
}

#[test]
fn a_source_fails_by_number(rt: HostRuntime) -> Result<(), AllocError> {
    let mut source = MemSource::new(rt.alloc(), b"abcde", &[2])?;
    let mut buf = [0u8; 3];
    for want in [Ok(3), Err(Failed), Ok(2), Ok(0)] {
        let got = source.read(&mut buf);
        assert!(rt; got == want, "read");
    }
    assert_eq!(rt; buf, *b"dec", "the last two bytes");
    let mut calm = CalmSource::new(rt.alloc(), b"ab")?;
    let got = calm.read(&mut buf);
    assert!(rt; got == Ok(2), "calm");
    Ok(())
}

#[test]
fn put_all_stops_at_a_fault(rt: HostRuntime) -> Result<(), AllocError> {
    let mut sink = MemSink::new(rt.alloc(), &[2])?;
    let puts = [
        put_all(&mut sink, b"ab"),
        put_all(&mut sink, b""),
        put_all(&mut sink, b"cd"),
    ];
    assert!(rt;
        puts == [Ok(()), Ok(()), Err(Failed)],
        "the empty piece is no write"
    );
    assert_eq!(rt; sink.bytes(), b"ab".as_slice(), "taken");
    Ok(())
}

#[test]
fn a_link_counts_each_side(rt: HostRuntime) -> Result<(), AllocError> {
    let mut link = MemLink::new(rt.alloc(), b"abc", &[1], &[2])?;
    let mut buf = [0u8; 8];
    let reads = [link.read(&mut buf), link.read(&mut buf)];
    assert!(rt; reads == [Err(Failed), Ok(3)], "reads");
    let writes = [link.write(b"x"), link.write(b"y"), link.write(b"z")];
    assert!(rt; writes == [Ok(1), Err(Failed), Ok(1)], "writes");
    assert_eq!(rt; link.bytes(), b"xz".as_slice(), "taken");
    Ok(())
}

#[test]
fn the_first_of_a_name_counts(rt: HostRuntime) -> Result<(), AllocError> {
    let mut buf = [0u8; 8];
    let mut files = MemFiles::new(rt.alloc(), two_of_one_name(rt.alloc())?, &[2], &[])?;
    assert!(rt; files.read(&mut buf) == Ok(0), "none is current");
    assert!(rt; files.open("a") == Ok(true), "there");
    assert!(rt; files.read(&mut buf) == Ok(5), "first");
    assert!(rt; files.open("a") == Err(Failed), "the second call");
    assert!(rt; files.read(&mut buf) == Ok(0), "none is current any more");
    assert!(rt; files.open("b") == Ok(false), "not there");
    let mut calm = CalmFiles::new(two_of_one_name(rt.alloc())?);
    assert!(rt; calm.open("a") == Ok(true), "calm");
    assert!(rt; calm.read(&mut buf) == Ok(5), "calm");
    Ok(())
}

#[test]
fn the_real_ends(rt: HostRuntime) -> Result<(), AllocError> {
    let mut buf = [0u8; 8];
    let mut files = DiskFiles::new(rt);
    assert!(rt; files.read(&mut buf) == Ok(0), "none is current");
    assert!(rt; files.open("lnfs_no_such_file") == Ok(false), "not there");
    assert!(rt; files.open(".") == Ok(true), "a folder opens");
    assert!(rt; files.read(&mut buf) == Err(Failed), "and can't be read");
    for room in [0, 65_536] {
        let mut sink = StdSink::new(rt.alloc(), room, rt.stderr())?;
        assert!(rt;
            put_all(&mut sink, b"a line of the test\n") == Ok(()),
            "{room}"
        );
        assert!(rt; sink.flush() == Ok(()), "{room}");
    }
    Ok(())
}

fn deal(alloc: Global, class: u32, input: &[u8]) -> Result<MemDeal, AllocError>
    ensures { IfOk result IsUnused }
{
    let link = MemLink::new(alloc, input, &[], &[2])?;
    Ok(MemDeal { class, link })
}

/// Two links of class 1 and between them one of class 0.
fn three_links(alloc: Global, failing: &[u64]) -> Result<MemNet, AllocError>
    ensures { IfOk result (λ net. (net.back ≡ []) × (net.dealt ≡ [])) }
{
    let mut deals = Vec::new(alloc);
    for (class, input) in [(1, b"a"), (0, b"b"), (1, b"c")] {
        deals.push(deal(alloc, class, input.as_slice())?)?;
    }
    MemNet::new(alloc, deals, failing)
}

/// The first byte of a link's input.
fn first_of(link: Result<MemLink, Failed>) -> Option<u8> {
    let mut buf = [0u8; 1];
    match link {
        Ok(mut link) => match link.read(&mut buf) {
            Ok(_) => Some(buf[0]),
            Err(_) => None,
        },
        Err(_) => None,
    }
}

#[test]
fn a_net_gives_each_link_once(rt: HostRuntime) -> Result<(), AllocError> {
    let mut net = three_links(rt.alloc(), &[3])?;
    assert!(rt; net.listen(1) == Ok(()), "listens");
    let given = [
        first_of(net.accept(1)),
        first_of(net.dial(0)),
        first_of(net.accept(1)),
        first_of(net.accept(1)),
        first_of(net.dial(1)),
    ];
    let want = [Some(b'a'), Some(b'b'), None, Some(b'c'), None];
    assert!(rt;
        given == want,
        "the third call fails, and then class 1 has no more"
    );
    Ok(())
}

#[test]
fn links_come_back_in_order(rt: HostRuntime) -> Result<(), AllocError> {
    let mut net = three_links(rt.alloc(), &[])?;
    let (Ok(mut first), Ok(second)) = (net.accept(1), net.dial(0)) else {
        assert!(rt; false, "two links");
        return Ok(());
    };
    let puts = [put_all(&mut first, b"x"), put_all(&mut first, b"y")];
    assert!(rt; puts == [Ok(()), Err(Failed)], "its second write");
    net.hang_up(second);
    net.hang_up(first);
    let [dialled, accepted] = net.back() else {
        assert!(rt; false, "both");
        return Ok(());
    };
    assert!(rt; dialled.bytes().is_empty(), "the dialled one came first");
    assert!(rt; accepted.bytes() == b"x".as_slice(), "what the other took");
    Ok(())
}

#[test]
fn a_clock_repeats_its_last_moment(rt: HostRuntime) -> Result<(), AllocError> {
    let moments = [
        Moment { secs: 7, nanos: 1 },
        Moment { secs: 5, nanos: 2 },
        Moment { secs: 9, nanos: 3 },
    ];
    let clock = MemClock::new(rt.alloc(), &moments)?;
    for want in [7, 5, 9, 9, 9] {
        assert_eq!(rt; clock.now().secs, want, "in turn");
    }
    let shared = MemClock::new(rt.alloc(), &moments)?;
    let (a, b) = thread::join(&rt, || shared.now().secs, || shared.now().secs);
    assert!(rt; (a, b) == (7, 5) || (a, b) == (5, 7), "one each");
    // a day in 2023
    assert!(rt;
        StdClock::new(rt).now().secs > 1_700_000_000,
        "the system's"
    );
    Ok(())
}

/// Two ends of one connection.
#[test]
fn links_over_tcp(rt: HostRuntime) -> Result<(), Fail> {
    let listener = TcpListener::bind(&rt, "127.0.0.1:0")?;
    let near = TcpStream::connect(&rt, listener.local_addr()?)?;
    let (far, _) = listener.accept()?;
    let (Ok(mut near), Ok(mut far)) = (TcpLink::new(near), TcpLink::new(far)) else {
        assert!(rt; false, "links");
        return Ok(());
    };
    let mut buf = [0u8; 8];
    assert!(rt; put_all(&mut near, b"call") == Ok(()), "to the server");
    assert!(rt; far.read(&mut buf) == Ok(4), "by the server");
    assert!(rt; far.flush() == Ok(()), "nothing waits");
    let sent = thread::join(&rt, move || put_all(&mut far, b"reply"), || ()).0;
    assert!(rt; sent == Ok(()), "to the client, by a thread");
    assert!(rt; near.read(&mut buf) == Ok(5), "by the client");
    assert_eq!(rt; &buf[..5], b"reply".as_slice(), "the reply");
    assert!(rt; near.read(&mut buf) == Ok(0), "the server has hung up");
    Ok(())
}

/// The client of a link that was closed sees the end behind the last reply, while the link is still held.
#[test]
fn a_closed_link_over_tcp(rt: HostRuntime) -> Result<(), Fail> {
    let listener = TcpListener::bind(&rt, "127.0.0.1:0")?;
    let near = TcpStream::connect(&rt, listener.local_addr()?)?;
    let (far, _) = listener.accept()?;
    let (Ok(mut near), Ok(mut far)) = (TcpLink::new(near), TcpLink::new(far)) else {
        assert!(rt; false, "links");
        return Ok(());
    };
    let mut buf = [0u8; 8];
    assert!(rt;
        put_all(&mut near, b"call") == Ok(()),
        "a request that isn't read"
    );
    assert!(rt; put_all(&mut far, b"reply") == Ok(()), "the last reply");
    far.close();
    far.close();
    assert!(rt; near.read(&mut buf) == Ok(5), "the last reply is read");
    assert!(rt; near.read(&mut buf) == Ok(0), "and then the end");
    assert!(rt;
        put_all(&mut far, b"more").is_err(),
        "nothing is written behind it"
    );
    Ok(())
}

/// Skipped where another program has the port.
#[test]
fn the_loopback(rt: HostRuntime) {
    let mut net = TcpNet::new(rt);
    assert!(rt; net.listen(8) == Err(Failed), "no class");
    assert!(rt; net.dial(8).is_err(), "no class");
    assert!(rt; net.accept(8).is_err(), "no class");
    if net.listen(7).is_err() {
        return;
    }
    let (Ok(mut client), Ok(mut server)) = (net.dial(7), net.accept(7)) else {
        assert!(rt; false, "both ends of class 7");
        return;
    };
    let mut buf = [0u8; 8];
    assert!(rt; put_all(&mut client, b"call") == Ok(()), "sent");
    assert!(rt; server.read(&mut buf) == Ok(4), "received");
    net.stop_listening();
    assert!(rt; net.dial(7).is_err(), "a late client is refused");
    assert!(rt; put_all(&mut server, b"reply") == Ok(()), "the link stays");
    assert!(rt; client.read(&mut buf) == Ok(5), "for both ends");
    net.hang_up(client);
    net.hang_up(server);
}
