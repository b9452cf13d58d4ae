//! What a peer's list of accepted messages tells by the links on which they came.

use bench_world::{LinkRange, inbox_of};
use llcp_link::Service;
use snep_core::Server;
use std::alloc::Global;
use std::test::Fail;

/// A server that accepted the messages 01 to 04, the first and the last of them from SAP 33.
fn server(alloc: Global) -> Result<Server, Fail> {
    let mut server = Server::new(alloc, 1024);
    for (source, byte) in [(33, 1), (32, 2), (32, 3), (33, 4)] {
        server.unit(alloc, source, &[0x10, 2, 0, 0, 0, 1, byte])?;
    }
    Ok(server)
}

const LINKS: [LinkRange; 4] = [
    LinkRange {
        peer: 1,
        start: 1,
        end: Some(2),
    },
    LinkRange {
        peer: 7,
        start: 0,
        end: Some(4),
    },
    LinkRange {
        peer: 1,
        start: 2,
        end: Some(2),
    },
    LinkRange {
        peer: 1,
        start: 3,
        end: None,
    },
];

/// Of each message that a peer's server accepted its link, its source and its bytes.
fn told(alloc: Global, server: &Server, peer: u64) -> Result<String, Fail> {
    let messages = inbox_of(alloc, server, &LINKS, peer)?;
    let mut told = String::new(alloc);
    for one in messages.as_slice() {
        let bytes = one.message.as_slice();
        told.push_str(&format!(in alloc; "{}.{}:{bytes:?} ", one.link, one.source)?)?;
    }
    Ok(told)
}

#[test]
fn messages_by_links(rt: HostRuntime) -> Result<(), Fail> {
    let alloc = rt.alloc();
    let server = server(alloc)?;
    let rows = [
        (1, "0.33:[1] 0.32:[3] 1.32:[2] 4.33:[4] "),
        (7, "2.33:[1] 2.32:[2] 2.32:[3] 2.33:[4] "),
        (2, "0.33:[1] 0.32:[2] 0.32:[3] 0.33:[4] "),
    ];
    for (peer, wanted) in rows {
        assert_eq!(rt; told(alloc, &server, peer)?.as_str(), wanted, "of {peer}");
    }
    Ok(())
}
