//! The broker: clauses see it as what it stores.

ghost use Rattle.std.specs.Prelude.{◌≡◌, ◌≤◌, ◌<◌, ◌^◌, ◌⊎◌, ℕ, [], pos, Ok, Err, IfOk, IfErr, IfSome, OnErr, OnOk, length, int_lt, false, true};
ghost use Rattle.pc_model.specs.declared.wire_fault.WireFault.{WireFault};
ghost use Rattle.pc_model.specs.Broker.{broker_step, entry_of, fetch_entry, has_part, is_fetch, item_code, membership_of, membership_refusal, place_code, stored_for, with_membership, with_stored};
ghost use Rattle.pc_model.specs.Broker.{Commits, Fetches, Unread, TooLong as LongReply};
ghost use Rattle.pc_offset_wire.specs.Views.{plain_commit_item, plain_commit_request, plain_fetch_entry, plain_fetch_request};
ghost use Rattle.pc_offset_wire.specs.Writing.{IsCommitBody, IsFetchBody};
ghost use Rattle.std.specs.Option.{option_copied};
ghost use Rattle.pc_world.specs.World.{AreStorable, IsStorable};
ghost use Rattle.pc_offset_store.specs.Steps.{IsAnswered, IsReply};
ghost use Rattle.pc_offset_store.specs.declared.fault.BrokerFault.TheVariants.{NoMemory, TooLong, UnknownPart, Wire};

use crate::commits::{self, GroupCommit};
use crate::entries;
use crate::fault::BrokerFault;
use crate::members::{self, Group, MemberId};
use crate::verdict::{self, Verdict};
use pc_model::Commit;
use pc_model::api::{
    NO_ERROR, OFFSET_FETCH, OFFSET_METADATA_TOO_LARGE, UNKNOWN_TOPIC_OR_PARTITION,
};
use pc_model::limits::MAX_METADATA_BYTES;
use pc_offset_wire::{
    CommitItem, CommitRequest, FetchEntry, FetchRequest, write_commit_reply, write_fetch_reply,
};
use pc_world::{Link, LinkFault, MAX_FRAME_BYTES};
use std::alloc::{AllocError, Global};
use std::marker::Model;

/// A broker of one topic. It stores positions up to 2^63 - 1 and texts of at most 4,096 bytes.
#[derive(Debug, Drop)]
pub struct OffsetBroker {
    alloc: Global,
    topic: String,
    parts: u32,
    commits: Vec<GroupCommit>,
    groups: Vec<Group>,
}

impl Model for OffsetBroker {
    ghost use Rattle.std.specs.Prelude.{map, string_bytes};
    ghost use Rattle.pc_model.specs.Broker.{Broker};
    ghost use Rattle.pc_world.specs.World.{AreStorable};
    ghost use Rattle.pc_offset_store.specs.Store.{membership_of, stored_of};

    ghost Value = { Broker };

    ghost view = { λ b. record {
      topic = string_bytes b.topic;
      parts = b.parts;
      commits = map stored_of b.commits.items;
      memberships = map membership_of b.groups.items;
    } };

    ghost invariant = { λ b. AreStorable (record {
      topic = string_bytes b.topic;
      parts = b.parts;
      commits = map stored_of b.commits.items;
      memberships = map membership_of b.groups.items;
    }) };
}

impl OffsetBroker {
    /// A broker of a topic with this many parts, which stores nothing. The only error is out of
    /// memory.
    pub fn new(alloc: Global, topic: &str, parts: u32) -> Result<OffsetBroker, AllocError>
        ensures { IfOk result (λ b. b ≡ record
            { topic = topic.now; parts = parts; commits = []; memberships = [] }) }
    {
        Ok(OffsetBroker {
            alloc,
            topic: String::from_str(alloc, topic)?,
            parts,
            commits: Vec::new(alloc),
            groups: Vec::new(alloc),
        })
    }

    /// Stores a commit for a group and a part. Fails with `UnknownPart` exactly where the part is
    /// not below the number of parts.
    pub fn with(&mut self, group: &str, part: u32, commit: Commit) -> Result<(), BrokerFault>
        requires position { commit.position < 2 ^ 63 }
        requires map { length commit.map ≤ MAX_METADATA_BYTES }
        ensures stored { OnOk result (self.new ≡ with_stored self.old group.now part commit) }
        ensures known { OnOk result (part < self.old.parts) }
        ensures unknown { result ≡ Err UnknownPart → self.old.parts ≤ part }
        ensures fault { IfErr result (λ e. (e ≡ UnknownPart) ⊎ (e ≡ NoMemory)) }
        ensures stays { OnErr result (self.new ≡ self.old) }
    {
        if part >= self.parts {
            return Err(BrokerFault::UnknownPart);
        }
        // A map is a text.
        let _text = commit.map.as_str();
        let group = String::from_str(self.alloc, group)?;
        self.commits.reserve(1)?;
        commits::put(
            &mut self.commits,
            GroupCommit {
                group,
                part,
                commit,
            },
        );
        Ok(())
    }

    /// Forms a group: it has this generation, which is 1 at least, and these members. The only
    /// error is out of memory.
    pub fn form(
        &mut self,
        group: &str,
        generation: i32,
        members: &[MemberId],
    ) -> Result<(), BrokerFault>
        requires { int_lt (pos 0) generation ≡ true }
        ensures formed { OnOk result (self.new ≡ with_membership self.old (record
            { group = group.now; generation = generation; members = members.now })) }
        ensures fault { IfErr result (λ e. e ≡ NoMemory) }
        ensures stays { OnErr result (self.new ≡ self.old) }
    {
        let group = Group::of(self.alloc, group, generation, members)?;
        self.groups.reserve(1)?;
        members::put(&mut self.groups, group);
        Ok(())
    }

    /// Whether the broker has that part of that topic.
    fn has_part(&self, name: &str, part: i32) -> bool
        ensures { result ≡ has_part self.now name.now part }
    {
        name == self.topic.as_str() && part >= 0 && part.unsigned_abs() < self.parts
    }

    /// Why the group of a request refuses what it commits, if it does.
    fn refusal(&self, request: &CommitRequest<'_>) -> Option<i16>
        ensures { let r = plain_commit_request request.now in result ≡ membership_refusal
            (membership_of self.now r.group) r.member r.generation }
    {
        match members::find(self.groups.as_slice(), request.group) {
            Some(group) => group.refusal(request.member, request.generation),
            None => None,
        }
    }

    /// The code of an item that the group does not refuse.
    fn place_code(&self, name: &str, item: &CommitItem<'_>) -> i16
        ensures { result ≡ place_code self.now name.now (plain_commit_item item.now) }
    {
        if !self.has_part(name, item.part) {
            return UNKNOWN_TOPIC_OR_PARTITION;
        }
        if verdict::text_of(item.metadata).len() > MAX_METADATA_BYTES {
            return OFFSET_METADATA_TOO_LARGE;
        }
        NO_ERROR
    }

    /// The code of an item of a topic: the first that applies.
    pub(crate) fn code_of(
        &self,
        request: &CommitRequest<'_>,
        name: &str,
        item: &CommitItem<'_>,
    ) -> i16
        ensures { result ≡ item_code self.now (plain_commit_request request.now) name.now
            (plain_commit_item item.now) }
    {
        match self.refusal(request) {
            Some(code) => code,
            None => self.place_code(name, item),
        }
    }

    /// What is stored for a group and a part of a topic.
    pub(crate) fn entry_of(&self, group: &str, name: &str, part: i32) -> FetchEntry<'_>
        ensures { plain_fetch_entry result ≡ fetch_entry self.now group.now name.now part }
    {
        if !self.has_part(name, part) {
            return entries::nothing(UNKNOWN_TOPIC_OR_PARTITION);
        }
        self.stored_entry(group, part.unsigned_abs())
    }

    /// What is stored for a group and a part that the topic has.
    fn stored_entry(&self, group: &str, part: u32) -> FetchEntry<'_>
        ensures { plain_fetch_entry result ≡ entry_of (stored_for self.now group.now part) }
    {
        match self.stored(group, part) {
            Some(commit) => entries::stored(commit),
            None => entries::nothing(NO_ERROR),
        }
    }

    /// The commit of a group and a part, if there is one.
    fn stored(&self, group: &str, part: u32) -> Option<&Commit>
        ensures value { option_copied result ≡ stored_for self.now group.now part }
        ensures storable { IfSome result (λ c. IsStorable c.now) }
    {
        match commits::find(self.commits.as_slice(), group, part) {
            Some(stored) => Some(&stored.commit),
            None => None,
        }
    }

    /// Answers a frame, which is a commit request or a fetch request: each of its items in order.
    ///
    /// Fails with `Wire` exactly where the frame does not read, and with `TooLong` exactly where it
    /// reads and its reply would have more than 2^31 - 1 bytes after the size.
    pub fn answer(&mut self, frame: &[u8]) -> Result<Vec<u8>, BrokerFault>
        ensures step { IfOk result
            (λ reply. broker_step self.old frame.now ≡ Ok (reply.items, self.new)) }
        ensures unread { (fault : WireFault) → result ≡ Err (Wire fault)
            → broker_step self.old frame.now ≡ Err (Unread fault) }
        ensures too_long { result ≡ Err TooLong → broker_step self.old frame.now ≡ Err LongReply }
        ensures known { result ≡ Err UnknownPart → ⊥ }
        ensures stays { OnErr result (self.new ≡ self.old) }

        // A frame that a link may be given is never answered too long.
        ensures short { length frame.now ≤ MAX_FRAME_BYTES → result ≡ Err TooLong → ⊥ }

        // Each position that it stores is below 2^63, and each text has at most 4,096 bytes.
        ensures storable { OnOk result (AreStorable self.old) }
    {
        if is_fetch(frame) {
            self.answer_fetches(frame)
        } else {
            self.answer_commits(frame)
        }
    }

    /// Answers a frame that is to be a fetch request.
    fn answer_fetches(&mut self, frame: &[u8]) -> Result<Vec<u8>, BrokerFault>
        requires { is_fetch frame.now ≡ true }
        ensures answer { IsAnswered result (λ v. v.items) frame.now self.old self.new }
        ensures storable { OnOk result (AreStorable self.old) }
    {
        let request = pc_offset_wire::read_fetch_request(frame)?;
        self.fetched(&request)
    }

    /// Answers a frame that is to be a commit request.
    fn answer_commits(&mut self, frame: &[u8]) -> Result<Vec<u8>, BrokerFault>
        requires { is_fetch frame.now ≡ false }
        ensures answer { IsAnswered result (λ v. v.items) frame.now self.old self.new }
        ensures storable { OnOk result (AreStorable self.old) }
    {
        let request = pc_offset_wire::read_commit_request(frame)?;
        self.committed(&request)
    }

    /// The reply to a fetch request.
    fn fetched(&self, request: &FetchRequest<'_>) -> Result<Vec<u8>, BrokerFault>
        requires { IsFetchBody (plain_fetch_request request.now) }
        ensures reply { IsReply result (λ v. v.items) (Fetches (plain_fetch_request request.now))
            self.now self.now }
        ensures storable { AreStorable self.now }
    {
        let entries = entries::of(self.alloc, self, request)?;
        Ok(write_fetch_reply(self.alloc, request, entries.as_slice())?)
    }

    /// Stores what a commit request has to be stored, and gives the reply.
    fn committed(&mut self, request: &CommitRequest<'_>) -> Result<Vec<u8>, BrokerFault>
        requires { IsCommitBody (plain_commit_request request.now) }
        ensures reply { IsReply result (λ v. v.items) (Commits (plain_commit_request request.now))
            self.old self.new }
        ensures storable { AreStorable self.old }
    {
        let Verdict { codes, accepted } = verdict::of(self.alloc, self, request)?;
        let reply = write_commit_reply(self.alloc, request, codes.as_slice())?;
        self.commits.reserve(accepted.len())?;
        commits::put_all(&mut self.commits, accepted);
        Ok(reply)
    }
}

/// Whether the api key of a frame is that of a fetch.
fn is_fetch(frame: &[u8]) -> bool
    ensures { result ≡ is_fetch frame.now }
{
    frame.len() >= 6 && i16::from_be_bytes([frame[4], frame[5]]) == OFFSET_FETCH
}

impl Link for OffsetBroker {
    ghost use Rattle.std.specs.Prelude.{true};

    ghost is_told = { λ _. true };

    ghost store = { λ b. b };

    ghost faults = { λ _. 0 };

    fn call(&mut self, frame: &[u8]) -> Result<Vec<u8>, LinkFault> {
        match self.answer(frame) {
            Ok(reply) => Ok(reply),
            Err(BrokerFault::NoMemory) => Err(LinkFault::NoMemory),
            Err(BrokerFault::Wire(_) | BrokerFault::UnknownPart | BrokerFault::TooLong) => {
                unreachable!()
            }
        }
    }
}
