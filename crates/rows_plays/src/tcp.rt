// What goes over TCP, on the loopback: a document's link asks a listener, an address that is none, and without a route;
// and a connection is accepted from another thread.
use link_tcp::{TcpAccepts, TcpLink, TcpLinks};
use link_traits::{
    Accepts, Clock, Link, Links, Route, Routes, Sink, Source, SystemClock, Target, write_whole,
};
use rows_shell::{Failed, Shown};
use std::alloc::Global;
use std::io::{Read, Write};
use std::net::{SocketAddr, TcpListener, TcpStream};
use std::sync::Wait;
use std::thread::Threads;
use std::{io, thread};
use value_bytes::Bytes;

const REQUEST: &[u8] = b"GET / HTTP/1.1\r\nHost: a.test\r\nConnection: close\r\n\r\n";

const ANSWER: &[u8] = b"HTTP/1.1 200 OK\r\nContent-Length: 2\r\n\r\nhi";

/// How many receives an answer takes at most.
const MOST_RECEIVES: usize = 64;

// Shows whether something is so.
fn tell(shown: &mut Shown, what: &[u8], is_so: bool) {
    shown.add(what);
    shown.add(b": ");
    shown.add_yes_or_no(is_so);
    shown.add(b"\n");
}

// Takes one connection, reads a request, and answers it. Whether it was the request.
fn serve(listener: &TcpListener) -> io::Result<bool> {
    let (mut stream, _) = listener.accept()?;
    let mut request = [0; REQUEST.len()];
    stream.read_exact(&mut request)?;
    stream.write_all(ANSWER)?;
    Ok(request.as_slice() == REQUEST)
}

// The route of an origin.
fn route(alloc: Global, origin: &[u8], address: &[u8]) -> Result<Route, Failed> {
    let origin = Bytes::of(alloc, origin)?;
    let address = Bytes::of(alloc, address)?;
    Ok(Route { origin, address })
}

// The routes of two servers: one is the listener, and the other's address names no place.
fn routes_to(alloc: Global, listener: &TcpListener) -> Result<Routes, Failed> {
    let address = format!(in alloc; "{}", listener.local_addr()?)?;
    let mut routes = Routes::new(alloc);
    routes.push(route(alloc, b"http://a.test", address.as_bytes())?)?;
    routes.push(route(alloc, b"http://b.test", b"nowhere")?)?;
    Ok(routes)
}

// Whether the request is sent to the origin.
fn is_sent<L: Link>(alloc: Global, link: &mut L, origin: &[u8]) -> Result<bool, Failed> {
    let origin = Bytes::of(alloc, origin)?;
    Ok(link.ask(&Target { origin }, REQUEST).is_ok())
}

// All that is received, to the end.
fn received<L: Link>(alloc: Global, link: &mut L) -> Result<Bytes, Failed> {
    let mut text = Bytes::new(alloc);
    let mut buffer = [0; 16];
    for _ in 0..MOST_RECEIVES {
        let Ok(count) = link.recv(&mut buffer) else {
            return Err(Failed);
        };
        if count == 0 {
            break;
        }
        text.append(&buffer[..count])?;
    }
    Ok(text)
}

// Asks the server for its answer, and then, when it has ended, once more; and an address that is none.
fn ask_routed<R: Threads + Wait>(
    rt: &R,
    link: &mut TcpLink<HostRuntime>,
    listener: TcpListener,
    shown: &mut Shown,
) -> Result<(), Failed> {
    let alloc = shown.alloc();
    let Ok(server) = thread::spawn(rt, move || serve(&listener).unwrap_or(false)) else {
        return Err(Failed);
    };
    let is_asked = is_sent(alloc, link, b"http://a.test")?;
    tell(shown, b"the server is asked", is_asked);
    tell(shown, b"it read the request", server.join(rt));
    let answer = received(alloc, link)?;
    tell(shown, b"its answer came", answer.as_slice() == ANSWER);
    tell(shown, b"the link failed", link.faults() != 0);
    let is_asked = is_sent(alloc, link, b"http://a.test")?;
    tell(shown, b"it is asked when it has ended", is_asked);
    let is_asked = is_sent(alloc, link, b"http://b.test")?;
    tell(shown, b"an address that is none is asked", is_asked);
    Ok(())
}

// Plays a document's link to a listener.
fn play_link<R: Threads + Wait>(rt: &R, net: HostRuntime, shown: &mut Shown) -> Result<(), Failed> {
    let listener = TcpListener::bind(&net, "127.0.0.1:0")?;
    let routes = routes_to(net.alloc(), &listener)?;
    let mut links = TcpLinks::new(net);
    let mut link = links.make(net.alloc(), 0, &routes)?;
    ask_routed(rt, &mut link, listener, shown)?;
    links.take_back(link);
    tell(shown, b"two asks failed", links.faults() == 2);
    Ok(())
}

// Plays a document's link that has no route.
fn play_unrouted(net: HostRuntime, shown: &mut Shown) -> Result<(), Failed> {
    let mut links = TcpLinks::new(net);
    let mut link = links.make(net.alloc(), 0, &Routes::new(net.alloc()))?;
    let is_asked = is_sent(net.alloc(), &mut link, b"http://a.test")?;
    tell(shown, b"without a route it is asked", is_asked);
    let is_over = matches!(link.recv(&mut [0; 8]), Ok(0));
    tell(shown, b"nothing comes then", is_over);
    Ok(())
}

// Connects, sends two bytes, and reads two.
fn call(net: HostRuntime, address: SocketAddr) -> io::Result<[u8; 2]> {
    let mut stream = TcpStream::connect(&net, address)?;
    stream.write_all(b"hi")?;
    let mut answer = [0; 2];
    stream.read_exact(&mut answer)?;
    Ok(answer)
}

// Two bytes of a peer, in one piece or in two.
fn two_bytes<S: Source>(source: &mut S) -> Result<[u8; 2], Failed> {
    let mut bytes = [0; 2];
    let Ok(count) = source.read(&mut bytes) else {
        return Err(Failed);
    };
    if count == 1 && source.read(&mut bytes[1..]).is_err() {
        return Err(Failed);
    }
    Ok(bytes)
}

// Takes the next connection, reads two bytes of it, and writes two.
fn answer_next<A: Accepts>(accepts: &mut A, shown: &mut Shown) -> Result<(), Failed> {
    let Ok(mut end) = accepts.next() else {
        return Err(Failed);
    };
    let came = two_bytes(&mut end);
    let is_written = write_whole(&mut end, b"ok").is_ok();
    accepts.take_back(end);
    tell(shown, b"two bytes came of a peer", came? == *b"hi");
    tell(shown, b"two were written to it", is_written);
    Ok(())
}

// Accepts a connection from another thread.
fn play_accepted<R: Threads + Wait>(
    rt: &R,
    net: HostRuntime,
    shown: &mut Shown,
) -> Result<(), Failed> {
    let address = TcpListener::bind(&net, "127.0.0.1:0")?.local_addr()?;
    let text = format!(in net.alloc(); "{address}")?;
    let mut accepts = TcpAccepts::new(&net);
    if accepts.listen(text.as_bytes()).is_err() {
        return Err(Failed);
    }
    let Ok(peer) = thread::spawn(rt, move || call(net, address).unwrap_or([0; 2])) else {
        return Err(Failed);
    };
    answer_next(&mut accepts, shown)?;
    tell(shown, b"it has read them", peer.join(rt) == *b"ok");
    tell(shown, b"listening failed", accepts.faults() != 0);
    Ok(())
}

/// Plays links and a connection over TCP, and shows what came of them.
pub fn play_tcp<R: Threads + Wait>(
    rt: &R,
    net: HostRuntime,
    shown: &mut Shown,
) -> Result<(), Failed> {
    play_link(rt, net, shown)?;
    play_unrouted(net, shown)?;
    play_accepted(rt, net, shown)?;
    let now = SystemClock::new(net).now();
    tell(shown, b"the clock is behind 2023", now > 1_700_000_000);
    shown.add(b"\n");
    Ok(())
}
