//! The client: clauses see its link and the id of its next frame.

ghost use Rattle.std.specs.Prelude.{◌≡◌, ◌≤◌, ◌<◌, ◌^◌, ◌⊎◌, pos, true, Ok, Err, IfErr, IfOk, IsOk, OnOk, int_lt, length};
ghost use Rattle.pc_model.specs.Broker.{broker_step, request_reading};
ghost use Rattle.pc_world.specs.declared.link.TheConstants.{MAX_FRAME_BYTES};
ghost use Rattle.pc_world.specs.World.{AreStorable, HasRisen, MayStore};
ghost use Rattle.pc_offset_client.specs.Client.{CommitGives, FetchGives, IsAnswer, IsFrameCommit, commit_answer, fetch_answer};
ghost use Rattle.pc_offset_client.specs.declared.fault.ClientFault.TheVariants.{LinkFailed, NoMemory};

use crate::fault::ClientFault;
use crate::{answer, question};
use pc_model::Commit;
use pc_world::{Link, LinkFault};
use std::alloc::Global;
use std::marker::Model;

/// A client over a link. Its frames have the correlation ids 1, 2, 3 and so on up to 2^31 - 1, and
/// then 1 again.
#[derive(Debug, Drop)]
pub struct Client<L: Link> {
    alloc: Global,
    link: L,
    next: i32,
}

impl<L: Link> Model for Client<L> {
    ghost use Rattle.std.specs.Prelude.{◌≡◌, int_lt, pos, true};
    ghost use Rattle.pc_offset_client.specs.Client.{ClientView};

    ghost Value = { ClientView L };

    ghost view = { λ c. record { link = c.link; next = c.next } };

    ghost invariant = { λ c. int_lt (pos 0) c.next ≡ true };
}

impl<L: Link> Client<L> {
    /// A client whose first frame has the id 1.
    pub fn new(alloc: Global, link: L) -> Client<L>
        ensures { result ≡ record { link = link; next = pos 1 } }
    {
        Client {
            alloc,
            link,
            next: 1,
        }
    }

    /// The link.
    pub fn link(&self) -> &L
        ensures { result.now ≡ self.now.link }
    {
        &self.link
    }

    /// The link, without the client.
    pub fn into_link(self) -> L
        ensures { result ≡ self.link }
    {
        let Client {
            alloc: _,
            link,
            next: _,
        } = self;
        link
    }

    /// Has the broker store the commit for the part.
    ///
    /// Fails with `LinkFailed` only where the link's count of faults rose, and then the commit may
    /// be stored or not; with `Refused` where the broker's reply has a code other than 0; with
    /// `BadReply` or `OtherReply` only over a link that does not tell its store. After any other
    /// fault than `LinkFailed` a told store is as before.
    pub fn commit(&mut self, part: u32, commit: &Commit) -> Result<(), ClientFault>
        requires part { part < 2 ^ 31 }
        requires position { commit.now.position < 2 ^ 63 }
        requires map { length commit.now.map < 2 ^ 15 }
        ensures gives { L.is_told self.old.link ≡ true → CommitGives (L.store self.old.link)
            (L.store self.new.link) part commit.now result }
        ensures answer { IsAnswer (commit_answer self.old.next part) result }
        ensures cause { result ≡ Err LinkFailed → HasRisen (L.faults self.old.link)
            (L.faults self.new.link) }
        ensures told { L.is_told self.new.link ≡ L.is_told self.old.link }
        ensures count { L.faults self.old.link ≤ L.faults self.new.link }
    {
        let id = self.next;
        let frame = question::commit_frame(self.alloc, id, part, commit)?;
        let reply = self.send(frame.as_slice())?;
        answer::of_commit(id, part, reply.as_slice())
    }

    /// The commit that the broker stores for the part: position 0 without a map where it stores
    /// none. Fails as `commit` does. A told store is always as before.
    pub fn fetch(&mut self, part: u32) -> Result<Commit, ClientFault>
        requires { part < 2 ^ 31 }
        ensures gives { L.is_told self.old.link ≡ true
            → FetchGives (L.store self.old.link) part result }
        ensures small { IfOk result IsFrameCommit }
        ensures keeps { L.is_told self.old.link ≡ true
            → L.store self.new.link ≡ L.store self.old.link }
        ensures answer { IsAnswer (fetch_answer self.old.next part) result }
        ensures cause { result ≡ Err LinkFailed → HasRisen (L.faults self.old.link)
            (L.faults self.new.link) }
        ensures told { L.is_told self.new.link ≡ L.is_told self.old.link }
        ensures count { L.faults self.old.link ≤ L.faults self.new.link }
    {
        let id = self.next;
        let frame = question::fetch_frame(self.alloc, id, part)?;
        let reply = self.send(frame.as_slice())?;
        answer::of_fetch(self.alloc, id, part, reply.as_slice())
    }

    /// Sends the frame that was written with the next id.
    fn send(&mut self, frame: &[u8]) -> Result<Vec<u8>, ClientFault>
        requires short { length frame.now ≤ MAX_FRAME_BYTES }
        requires reads { IsOk (request_reading frame.now) }
        ensures answered { L.is_told self.old.link ≡ true → IfOk result (λ reply. broker_step
            (L.store self.old.link) frame.now ≡ Ok (reply.items, L.store self.new.link)) }
        ensures storable { L.is_told self.old.link ≡ true
            → OnOk result (AreStorable (L.store self.old.link)) }
        ensures failed { result ≡ Err LinkFailed → HasRisen (L.faults self.old.link)
            (L.faults self.new.link) }
        ensures may_store { L.is_told self.old.link ≡ true → result ≡ Err LinkFailed → MayStore
            (request_reading frame.now) (L.store self.old.link) (L.store self.new.link) }
        ensures no_memory { L.is_told self.old.link ≡ true → result ≡ Err NoMemory
            → L.store self.new.link ≡ L.store self.old.link }
        ensures fault { IfErr result (λ e. (e ≡ LinkFailed) ⊎ (e ≡ NoMemory)) }
        ensures told { L.is_told self.new.link ≡ L.is_told self.old.link }
        ensures count { L.faults self.old.link ≤ L.faults self.new.link }
    {
        self.next = after(self.next);
        match self.link.call(frame) {
            Ok(reply) => Ok(reply),
            Err(LinkFault::Failed) => Err(ClientFault::LinkFailed),
            Err(LinkFault::NoMemory) => Err(ClientFault::NoMemory),
        }
    }
}

/// The id after one.
pub(crate) fn after(id: i32) -> i32
    requires { int_lt (pos 0) id ≡ true }
    ensures { int_lt (pos 0) result ≡ true }
{
    id.checked_add(1).unwrap_or(1)
}
