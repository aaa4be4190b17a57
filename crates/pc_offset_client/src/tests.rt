//! A link that tells nothing and answers given frames: each form of a bad reply and of another one.

use crate::question::TOPIC;
use crate::{Client, ClientFault};
use pc_model::{Commit, MapText, WireFault};
use pc_offset_wire::{read_commit_request, read_fetch_request};
use pc_world::{Link, LinkFault};
use std::alloc::Global;
use std::test::Fail;

/// A link that answers each frame with the same reply, and keeps the last frame.
#[derive(Debug, Drop)]
struct Canned {
    alloc: Global,
    reply: &'static [u8],
    sent: Vec<u8>,
}

impl Link for Canned {
    ghost use Rattle.std.specs.Prelude.{[], false};

    ghost is_told = { λ _. false };

    ghost store = { λ _. record { topic = []; parts = 0; commits = []; memberships = [] } };

    ghost faults = { λ _. 0 };

    fn call(&mut self, frame: &[u8]) -> Result<Vec<u8>, LinkFault> {
        self.sent = Vec::from_slice(self.alloc, frame)?;
        Ok(Vec::from_slice(self.alloc, self.reply)?)
    }
}

fn client_over(alloc: Global, reply: &'static [u8]) -> Client<Canned> {
    let link = Canned {
        alloc,
        reply,
        sent: Vec::new(alloc),
    };
    Client::new(alloc, link)
}

/// Replies to the first commit of part 0, and what they answer. Each but the faults of reading has
/// its size, correlation id, count of topics, name, count of parts, part and code.
const COMMITS: [(&[u8], Result<(), ClientFault>); 12] = [
    (
        b"\0\0\0\x17\0\0\0\x01\0\0\0\x01\0\x03log\0\0\0\x01\0\0\0\0\0\0",
        Ok(()),
    ),
    (
        b"\0\0\0\x17\0\0\0\x01\0\0\0\x01\0\x03log\0\0\0\x01\0\0\0\0\0\x03",
        Err(ClientFault::Refused(3)),
    ),
    (
        b"\0\0\0\x17\0\0\0\x01\0\0\0\x01\0\x03log\0\0\0\x01\0\0\0\0\0",
        Err(ClientFault::BadReply(WireFault::Short)),
    ),
    (
        b"\0\0\0\x17\0\0\0\x01\0\0\0\x01\0\x03log\0\0\0\x01\0\0\0\0\0\0\0",
        Err(ClientFault::BadReply(WireFault::Trailing)),
    ),
    (
        b"\0\0\0\x17\0\0\0\x01\0\0\0\x01\xff\xfflog\0\0\0\x01\0\0\0\0\0\0",
        Err(ClientFault::BadReply(WireFault::NegativeLength)),
    ),
    (
        b"\0\0\0\x17\0\0\0\x01\0\0\0\x01\0\x03l\xffg\0\0\0\x01\0\0\0\0\0\0",
        Err(ClientFault::BadReply(WireFault::NotUtf8)),
    ),
    (
        b"\0\0\0\x17\0\0\0\x02\0\0\0\x01\0\x03log\0\0\0\x01\0\0\0\0\0\0",
        Err(ClientFault::OtherReply { asked: 1, got: 2 }),
    ),
    (
        b"\0\0\0\x08\0\0\0\x01\0\0\0\0",
        Err(ClientFault::OtherReply { asked: 1, got: 0 }),
    ),
    (
        b"\0\0\0\x17\0\0\0\x01\0\0\0\x01\0\x03lag\0\0\0\x01\0\0\0\0\0\0",
        Err(ClientFault::OtherReply { asked: 0, got: 1 }),
    ),
    (
        b"\0\0\0\x11\0\0\0\x01\0\0\0\x01\0\x03log\0\0\0\0",
        Err(ClientFault::OtherReply { asked: 1, got: 0 }),
    ),
    (
        b"\0\0\0\x1d\0\0\0\x01\0\0\0\x01\0\x03log\0\0\0\x02\0\0\0\0\0\0\0\0\0\x01\0\0",
        Err(ClientFault::OtherReply { asked: 1, got: 2 }),
    ),
    (
        b"\0\0\0\x17\0\0\0\x01\0\0\0\x01\0\x03log\0\0\0\x01\0\0\0\x05\0\0",
        Err(ClientFault::OtherReply { asked: 0, got: 5 }),
    ),
];

#[test]
fn replies_to_a_commit(rt: HostRuntime) -> Result<(), Fail> {
    for (reply, wanted) in COMMITS {
        let mut client = client_over(rt.alloc(), reply);
        let commit = Commit {
            position: 10,
            map: MapText::from_str(rt.alloc(), "bAACAg==")?,
        };
        assert_eq!(rt; client.commit(0, &commit), wanted, "by {reply:?}");
    }
    Ok(())
}

/// Replies to the first fetch of part 2, and the position and the map that they give.
const FETCHES: [(&[u8], Result<(u64, &str), ClientFault>); 6] = [
    (
        b"\0\0\0\x21\0\0\0\x01\0\0\0\x01\0\x03log\0\0\0\x01\0\0\0\x02\xff\xff\xff\xff\xff\xff\xff\xff\0\0\0\0",
        Ok((0, "")),
    ),
    (
        b"\0\0\0\x29\0\0\0\x01\0\0\0\x01\0\x03log\0\0\0\x01\0\0\0\x02\0\0\0\0\0\0\0\x07\0\x08bAACAg==\0\0",
        Ok((7, "bAACAg==")),
    ),
    (
        b"\0\0\0\x21\0\0\0\x01\0\0\0\x01\0\x03log\0\0\0\x01\0\0\0\x02\0\0\0\0\0\0\0\x07\xff\xff\0\0",
        Ok((7, "")),
    ),
    (
        b"\0\0\0\x21\0\0\0\x01\0\0\0\x01\0\x03log\0\0\0\x01\0\0\0\x02\xff\xff\xff\xff\xff\xff\xff\xff\0\0\0\x03",
        Err(ClientFault::Refused(3)),
    ),
    (
        b"\0\0\0\x21\0\0\0\x01\0\0\0\x01\0\x03log\0\0\0\x01\0\0\0\x02\xff\xff\xff\xff\xff\xff\xff\xfe\0\0\0\0",
        Err(ClientFault::BadReply(WireFault::BadOffset)),
    ),
    (
        b"\0\0\0\x21\0\0\0\x01\0\0\0\x01\0\x03log\0\0\0\x01\0\0\0\x03\xff\xff\xff\xff\xff\xff\xff\xff\0\0\0\0",
        Err(ClientFault::OtherReply { asked: 2, got: 3 }),
    ),
];

#[test]
fn replies_to_a_fetch(rt: HostRuntime) -> Result<(), Fail> {
    for (reply, wanted) in FETCHES {
        let mut client = client_over(rt.alloc(), reply);
        match client.fetch(2) {
            Ok(commit) => {
                assert_eq!(rt;
                    Ok((commit.position, commit.map.as_str())),
                    wanted,
                    "by {reply:?}"
                );
            }
            Err(fault) => assert_eq!(rt; Err(fault), wanted, "by {reply:?}"),
        }
    }
    Ok(())
}

/// A frame of a fetch, whose last bytes are those of the part.
const FETCH: [u8; 41] =
    *b"\0\0\0\x25\0\x09\0\x01\0\0\0\x02\0\x02pc\0\x06parcon\0\0\0\x01\0\x03log\0\0\0\x01\0\0\0\x02";

#[test]
fn frames_have_the_next_id(rt: HostRuntime) -> Result<(), Fail> {
    let mut client = client_over(rt.alloc(), b"");
    let commit = Commit {
        position: 10,
        map: MapText::from_str(rt.alloc(), "")?,
    };
    let fault = Err(ClientFault::BadReply(WireFault::Short));
    assert_eq!(rt; client.commit(7, &commit), fault);
    let first = read_commit_request(client.link().sent.as_slice())?;
    assert_eq!(rt; (first.correlation, first.client), (1, Some("pc")));
    assert_eq!(rt;
        (first.generation, first.member, first.retention),
        (-1, "", -1)
    );
    assert_eq!(rt; client.fetch(2).is_err(), true);
    let sent = client.into_link().sent;
    assert_eq!(rt; sent.as_slice(), FETCH.as_slice());
    let second = read_fetch_request(sent.as_slice())?;
    assert_eq!(rt; (second.correlation, second.group), (2, "parcon"));
    Ok(())
}

#[test]
fn after_the_last_id_comes_the_first(rt: HostRuntime) {
    assert_eq!(rt; crate::client::after(1), 2);
    assert_eq!(rt; crate::client::after(i32::MAX), 1);
    assert_eq!(rt; TOPIC, "log");
}
