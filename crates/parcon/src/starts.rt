//! The starting commits, which are stored before a play begins.

ghost use Rattle.std.specs.Prelude.{◌≡◌, ◌≤◌, ◌⊎◌, true, Err, IfOk, IfErr};
ghost use Rattle.std.specs.List.{All};
ghost use Rattle.pc_offset_client.specs.declared.fault.ClientFault.TheVariants.{NoMemory as Forgot};
ghost use Rattle.pc_play.specs.Play.{IsAborted, moment};
ghost use Rattle.parcon.specs.Starts.{IsSendable, Sends, SendsStart, commit_at};

use pc_model::{Commit, MapText, Start};
use pc_offset_client::{Client, ClientFault};
use pc_world::Link;
use std::alloc::{AllocError, Global};

/// The answer to the starting commits, and the link.
pub(crate) struct Sent<L: Link> {
    /// The fault of the first that was not stored, if there is one.
    pub(crate) answer: Result<(), ClientFault>,
    pub(crate) link: L,
}

/// Sends the starting commits over the link, in their order, up to the first that is not stored.
pub(crate) fn send_starts<L: Link>(alloc: Global, starts: &[Start], link: L) -> Sent<L>
    requires { All IsSendable starts.now }
    ensures sends { Sends (L.is_told link) starts.now (moment (L.store link) (L.faults link))
        (moment (L.store result.link) (L.faults result.link)) result.answer }
    ensures told { L.is_told result.link ≡ L.is_told link }
{
    let mut client = Client::new(alloc, link);
    let answer = send_all(alloc, &mut client, starts);
    Sent {
        answer,
        link: client.into_link(),
    }
}

/// Sends the starting commits by this client.
fn send_all<L: Link>(
    alloc: Global,
    client: &mut Client<L>,
    starts: &[Start],
) -> Result<(), ClientFault>
    requires { All IsSendable starts.now }
    ensures sends { Sends (L.is_told client.old.link) starts.now
        (moment (L.store client.old.link) (L.faults client.old.link))
        (moment (L.store client.new.link) (L.faults client.new.link)) result }
    ensures told { L.is_told client.new.link ≡ L.is_told client.old.link }
{
    for start in starts {
        send(alloc, client, start)?;
    }
    Ok(())
}

/// Sends a starting commit.
fn send<L: Link>(alloc: Global, client: &mut Client<L>, start: &Start) -> Result<(), ClientFault>
    requires { IsSendable start.now }
    ensures sends { (result ≡ Err Forgot) ⊎ SendsStart (L.is_told client.old.link) start.now
        (moment (L.store client.old.link) (L.faults client.old.link))
        (moment (L.store client.new.link) (L.faults client.new.link)) result }
    ensures forgot { result ≡ Err Forgot → IsAborted (L.is_told client.old.link)
        (moment (L.store client.old.link) (L.faults client.old.link))
        (moment (L.store client.new.link) (L.faults client.new.link)) }
    ensures told { L.is_told client.new.link ≡ L.is_told client.old.link }
{
    let commit = commit_at(alloc, start)?;
    client.commit(start.part, &commit)
}

/// The commit of a start.
fn commit_at(alloc: Global, start: &Start) -> Result<Commit, AllocError>
    ensures { IfOk result (λ commit. commit ≡ commit_at start.now) }
{
    Ok(Commit {
        position: start.position,
        map: MapText::from_str(alloc, start.map.as_str())?,
    })
}
