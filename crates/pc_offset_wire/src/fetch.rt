//! OffsetFetch: its request and its reply, read in place.

ghost use Rattle.std.specs.Prelude.{◌≡◌, IfOk, IsOkAnd};
ghost use Rattle.pc_model.specs.Messages.{IsFetchRequest, IsFetchReply};
ghost use Rattle.pc_model.specs.MessageReading.{topic_at, part_id_at, entry_at, fetch_request_at, fetch_reply_at, fetch_request_reading, fetch_reply_reading};
ghost use Rattle.pc_offset_wire.specs.Reading.{Gives};
ghost use Rattle.pc_offset_wire.specs.Items.{items_left};
ghost use Rattle.pc_offset_wire.specs.Views.{plain_fetch_entry, plain_fetch_request, plain_fetch_reply};

use crate::items::{self, Items, WireItem};
use crate::{fields, frame};
use pc_model::WireFault;
use pc_model::api::{OFFSET_FETCH, OFFSET_FETCH_VERSION};

/// What is stored for a part.
#[derive(Clone, Copy, Debug, PartialEq, Eq)]
pub struct FetchEntry<'a> {
    /// The offset to begin with, or -1 where nothing is stored.
    pub position: i64,
    /// At most 32,767 bytes. Null is `None`, which is not the empty text.
    pub metadata: Option<&'a str>,
    /// 0 where the broker has the part.
    pub code: i16,
}

/// The items of a topic of a fetch request.
pub type PartItems<'a> = Items<'a, i32>;

/// The topics of a fetch request: pairs of a name and items.
pub type PartTopics<'a> = Items<'a, (&'a str, PartItems<'a>)>;

/// The items of a topic of a fetch reply: pairs of a part and what is stored for it.
pub type EntryItems<'a> = Items<'a, (i32, FetchEntry<'a>)>;

/// The topics of a fetch reply: pairs of a name and items.
pub type EntryTopics<'a> = Items<'a, (&'a str, EntryItems<'a>)>;

/// A request for what is stored for a group.
#[derive(Clone, Copy, Debug)]
pub struct FetchRequest<'a> {
    pub correlation: i32,
    pub client: Option<&'a str>,
    pub group: &'a str,
    topics: PartTopics<'a>,
}

/// What a fetch request is answered.
#[derive(Clone, Copy, Debug)]
pub struct FetchReply<'a> {
    pub correlation: i32,
    topics: EntryTopics<'a>,
}

impl<'a> WireItem<'a> for i32 {
    ghost use Rattle.std.specs.Prelude.{ℤ};
    ghost use Rattle.pc_model.specs.MessageReading.{part_id_at};

    ghost Plain = { ℤ };

    ghost plain = { λ part. part };

    ghost at = { part_id_at };

    #[tactic(auto, unfolding(pc_model::specs::MessageReading::part_id_at))]
    fn read(bytes: &'a [u8]) -> Result<(i32, &'a [u8]), WireFault> {
        fields::i32_at(bytes)
    }
}

impl<'a> WireItem<'a> for (i32, FetchEntry<'a>) {
    ghost use Rattle.std.specs.Prelude.{ℤ};
    ghost use Rattle.pc_model.specs.Messages.{FetchEntry as PlainFetchEntry};
    ghost use Rattle.pc_model.specs.MessageReading.{entry_at};
    ghost use Rattle.pc_offset_wire.specs.Views.{plain_part_entry};

    ghost Plain = { ℤ × PlainFetchEntry };

    ghost plain = { plain_part_entry };

    ghost at = { entry_at };

    #[tactic(auto, unfolding(pc_model::specs::MessageReading::entry_at))]
    fn read(bytes: &'a [u8]) -> Result<((i32, FetchEntry<'a>), &'a [u8]), WireFault> {
        let (part, rest) = fields::i32_at(bytes)?;
        let (position, rest) = fields::position(-1, rest)?;
        let (metadata, rest) = fields::nullable(rest)?;
        let (code, rest) = fields::i16_at(rest)?;
        let entry = FetchEntry {
            position,
            metadata,
            code,
        };
        Ok(((part, entry), rest))
    }
}

impl<'a> FetchRequest<'a> {
    /// The topics, in their order.
    pub fn topics(&self) -> PartTopics<'a>
        ensures { items_left (topic_at part_id_at) result ≡ (plain_fetch_request self.now).topics }
    {
        self.topics.again()
    }
}

impl<'a> FetchReply<'a> {
    /// The topics, in their order.
    pub fn topics(&self) -> EntryTopics<'a>
        ensures { items_left (topic_at entry_at) result ≡ (plain_fetch_reply self.now).topics }
    {
        self.topics.again()
    }
}

/// The request at the front of the bytes.
#[tactic(auto, unfolding(pc_model::specs::MessageReading::fetch_request_at))]
fn fetch_request(bytes: &[u8]) -> Result<(FetchRequest<'_>, &[u8]), WireFault>
    ensures { Gives (λ x. (plain_fetch_request x.0, x.1.now)) result (fetch_request_at bytes.now) }
{
    let (correlation, client, rest) = frame::header(OFFSET_FETCH, OFFSET_FETCH_VERSION, bytes)?;
    let (group, rest) = fields::string(rest)?;
    let (topics, rest) = items::array(rest)?;
    Ok((
        FetchRequest {
            correlation,
            client,
            group,
            topics,
        },
        rest,
    ))
}

/// The reply at the front of the bytes.
#[tactic(auto, unfolding(pc_model::specs::MessageReading::fetch_reply_at))]
fn fetch_reply(bytes: &[u8]) -> Result<(FetchReply<'_>, &[u8]), WireFault>
    ensures { Gives (λ x. (plain_fetch_reply x.0, x.1.now)) result (fetch_reply_at bytes.now) }
{
    let (correlation, rest) = fields::i32_at(bytes)?;
    let (topics, rest) = items::array(rest)?;
    Ok((
        FetchReply {
            correlation,
            topics,
        },
        rest,
    ))
}

/// The request that a frame is, or its first fault.
#[tactic(auto, unfolding(pc_model::specs::MessageReading::frame_reading))]
fn framed_fetch_request(frame: &[u8]) -> Result<FetchRequest<'_>, WireFault>
    ensures { Gives plain_fetch_request result (fetch_request_reading frame.now) }
{
    let body = frame::body(frame)?;
    let (request, rest) = fetch_request(body)?;
    frame::whole(request, rest)
}

/// Reads the fetch request that a frame is. What is refused has its first fault.
pub fn read_fetch_request<'a>(frame: &'a [u8]) -> Result<FetchRequest<'a>, WireFault>
    // What is read is a request, and a request is read.
    ensures found { IfOk result (λ r. IsFetchRequest frame.now (plain_fetch_request r)) }
    ensures only { (message : _) → IsFetchRequest frame.now message
        → IsOkAnd result (λ r. plain_fetch_request r ≡ message) }
    // Which fault it is.
    ensures exact { Gives plain_fetch_request result (fetch_request_reading frame.now) }
{
    framed_fetch_request(frame)
}

/// The reply that a frame is, or its first fault.
#[tactic(auto, unfolding(pc_model::specs::MessageReading::frame_reading))]
fn framed_fetch_reply(frame: &[u8]) -> Result<FetchReply<'_>, WireFault>
    ensures { Gives plain_fetch_reply result (fetch_reply_reading frame.now) }
{
    let body = frame::body(frame)?;
    let (reply, rest) = fetch_reply(body)?;
    frame::whole(reply, rest)
}

/// Reads the fetch reply that a frame is. What is refused has its first fault.
pub fn read_fetch_reply<'a>(frame: &'a [u8]) -> Result<FetchReply<'a>, WireFault>
    // What is read is a reply, and a reply is read.
    ensures found { IfOk result (λ r. IsFetchReply frame.now (plain_fetch_reply r)) }
    ensures only { (message : _) → IsFetchReply frame.now message
        → IsOkAnd result (λ r. plain_fetch_reply r ≡ message) }
    // Which fault it is.
    ensures exact { Gives plain_fetch_reply result (fetch_reply_reading frame.now) }
{
    framed_fetch_reply(frame)
}
