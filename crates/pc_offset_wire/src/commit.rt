//! OffsetCommit: its request and its reply, read in place.

ghost use Rattle.std.specs.Prelude.{◌≡◌, IfOk, IsOkAnd};
ghost use Rattle.pc_model.specs.Messages.{IsCommitRequest, IsCommitReply};
ghost use Rattle.pc_model.specs.MessageReading.{topic_at, commit_item_at, commit_code_at, commit_request_at, commit_reply_at, commit_request_reading, commit_reply_reading};
ghost use Rattle.pc_offset_wire.specs.Reading.{Gives};
ghost use Rattle.pc_offset_wire.specs.Items.{items_left};
ghost use Rattle.pc_offset_wire.specs.Views.{plain_commit_item, plain_commit_code, plain_commit_request, plain_commit_reply};

use crate::items::{self, Items, WireItem};
use crate::{fields, frame};
use pc_model::WireFault;
use pc_model::api::{OFFSET_COMMIT, OFFSET_COMMIT_VERSION};

/// What is to be stored for a part.
#[derive(Clone, Copy, Debug, PartialEq, Eq)]
pub struct CommitItem<'a> {
    pub part: i32,
    /// The offset to begin with, which is not negative.
    pub position: i64,
    /// At most 32,767 bytes. Null is `None`, which is not the empty text.
    pub metadata: Option<&'a str>,
}

/// Whether the commit of a part was stored.
#[derive(Clone, Copy, Debug, PartialEq, Eq)]
pub struct CommitCode {
    pub part: i32,
    /// 0 where it was stored.
    pub code: i16,
}

/// The items of a topic of a commit request.
pub type CommitItems<'a> = Items<'a, CommitItem<'a>>;

/// The topics of a commit request: pairs of a name and items.
pub type CommitTopics<'a> = Items<'a, (&'a str, CommitItems<'a>)>;

/// The items of a topic of a commit reply.
pub type CodeItems<'a> = Items<'a, CommitCode>;

/// The topics of a commit reply: pairs of a name and items.
pub type CodeTopics<'a> = Items<'a, (&'a str, CodeItems<'a>)>;

/// A request to store commits of a group.
#[derive(Clone, Copy, Debug)]
pub struct CommitRequest<'a> {
    pub correlation: i32,
    pub client: Option<&'a str>,
    pub group: &'a str,
    /// The generation of the group in which it commits, or -1.
    pub generation: i32,
    /// The member of the group that commits. It is empty where none does.
    pub member: &'a str,
    /// How long to keep the commits, in milliseconds, or -1.
    pub retention: i64,
    topics: CommitTopics<'a>,
}

/// What a commit request is answered.
#[derive(Clone, Copy, Debug)]
pub struct CommitReply<'a> {
    pub correlation: i32,
    topics: CodeTopics<'a>,
}

impl<'a> WireItem<'a> for CommitItem<'a> {
    ghost use Rattle.pc_model.specs.Messages.{CommitItem as PlainCommitItem};
    ghost use Rattle.pc_model.specs.MessageReading.{commit_item_at};
    ghost use Rattle.pc_offset_wire.specs.Views.{plain_commit_item};

    ghost Plain = { PlainCommitItem };

    ghost plain = { plain_commit_item };

    ghost at = { commit_item_at };

    #[tactic(auto, unfolding(pc_model::specs::MessageReading::commit_item_at))]
    fn read(bytes: &'a [u8]) -> Result<(CommitItem<'a>, &'a [u8]), WireFault> {
        let (part, rest) = fields::i32_at(bytes)?;
        let (position, rest) = fields::position(0, rest)?;
        let (metadata, rest) = fields::nullable(rest)?;
        Ok((
            CommitItem {
                part,
                position,
                metadata,
            },
            rest,
        ))
    }
}

impl<'a> WireItem<'a> for CommitCode {
    ghost use Rattle.pc_model.specs.Messages.{CommitCode as PlainCommitCode};
    ghost use Rattle.pc_model.specs.MessageReading.{commit_code_at};
    ghost use Rattle.pc_offset_wire.specs.Views.{plain_commit_code};

    ghost Plain = { PlainCommitCode };

    ghost plain = { plain_commit_code };

    ghost at = { commit_code_at };

    #[tactic(auto, unfolding(pc_model::specs::MessageReading::commit_code_at))]
    fn read(bytes: &'a [u8]) -> Result<(CommitCode, &'a [u8]), WireFault> {
        let (part, rest) = fields::i32_at(bytes)?;
        let (code, rest) = fields::i16_at(rest)?;
        Ok((CommitCode { part, code }, rest))
    }
}

impl<'a> CommitRequest<'a> {
    /// The topics, in their order.
    pub fn topics(&self) -> CommitTopics<'a>
        ensures { items_left (topic_at commit_item_at) result
            ≡ (plain_commit_request self.now).topics }
    {
        self.topics.again()
    }
}

impl<'a> CommitReply<'a> {
    /// The topics, in their order.
    pub fn topics(&self) -> CodeTopics<'a>
        ensures { items_left (topic_at commit_code_at) result
            ≡ (plain_commit_reply self.now).topics }
    {
        self.topics.again()
    }
}

/// The request at the front of the bytes.
#[tactic(auto, unfolding(pc_model::specs::MessageReading::commit_request_at))]
fn commit_request(bytes: &[u8]) -> Result<(CommitRequest<'_>, &[u8]), WireFault>
    ensures { Gives (λ x. (plain_commit_request x.0, x.1.now)) result
        (commit_request_at bytes.now) }
{
    let (correlation, client, rest) = frame::header(OFFSET_COMMIT, OFFSET_COMMIT_VERSION, bytes)?;
    let (group, rest) = fields::string(rest)?;
    let (generation, rest) = fields::i32_at(rest)?;
    let (member, rest) = fields::string(rest)?;
    let (retention, rest) = fields::i64_at(rest)?;
    let (topics, rest) = items::array(rest)?;
    Ok((
        CommitRequest {
            correlation,
            client,
            group,
            generation,
            member,
            retention,
            topics,
        },
        rest,
    ))
}

/// The reply at the front of the bytes.
#[tactic(auto, unfolding(pc_model::specs::MessageReading::commit_reply_at))]
fn commit_reply(bytes: &[u8]) -> Result<(CommitReply<'_>, &[u8]), WireFault>
    ensures { Gives (λ x. (plain_commit_reply x.0, x.1.now)) result (commit_reply_at bytes.now) }
{
    let (correlation, rest) = fields::i32_at(bytes)?;
    let (topics, rest) = items::array(rest)?;
    Ok((
        CommitReply {
            correlation,
            topics,
        },
        rest,
    ))
}

/// The request that a frame is, or its first fault.
#[tactic(auto, unfolding(pc_model::specs::MessageReading::frame_reading))]
fn framed_commit_request(frame: &[u8]) -> Result<CommitRequest<'_>, WireFault>
    ensures { Gives plain_commit_request result (commit_request_reading frame.now) }
{
    let body = frame::body(frame)?;
    let (request, rest) = commit_request(body)?;
    frame::whole(request, rest)
}

/// Reads the commit request that a frame is. What is refused has its first fault.
pub fn read_commit_request<'a>(frame: &'a [u8]) -> Result<CommitRequest<'a>, WireFault>
    // What is read is a request, and a request is read.
    ensures found { IfOk result (λ r. IsCommitRequest frame.now (plain_commit_request r)) }
    ensures only { (message : _) → IsCommitRequest frame.now message
        → IsOkAnd result (λ r. plain_commit_request r ≡ message) }
    // Which fault it is.
    ensures exact { Gives plain_commit_request result (commit_request_reading frame.now) }
{
    framed_commit_request(frame)
}

/// The reply that a frame is, or its first fault.
#[tactic(auto, unfolding(pc_model::specs::MessageReading::frame_reading))]
fn framed_commit_reply(frame: &[u8]) -> Result<CommitReply<'_>, WireFault>
    ensures { Gives plain_commit_reply result (commit_reply_reading frame.now) }
{
    let body = frame::body(frame)?;
    let (reply, rest) = commit_reply(body)?;
    frame::whole(reply, rest)
}

/// Reads the commit reply that a frame is. What is refused has its first fault.
pub fn read_commit_reply<'a>(frame: &'a [u8]) -> Result<CommitReply<'a>, WireFault>
    // What is read is a reply, and a reply is read.
    ensures found { IfOk result (λ r. IsCommitReply frame.now (plain_commit_reply r)) }
    ensures only { (message : _) → IsCommitReply frame.now message
        → IsOkAnd result (λ r. plain_commit_reply r ≡ message) }
    // Which fault it is.
    ensures exact { Gives plain_commit_reply result (commit_reply_reading frame.now) }
{
    framed_commit_reply(frame)
}
