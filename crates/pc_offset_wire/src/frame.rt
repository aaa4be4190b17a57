//! What all frames have: a size, and as many bytes; and the header of the requests.

ghost use Rattle.std.specs.Prelude.{◌≡◌, Ok, length};
ghost use Rattle.std.specs.Option.{option_copied};
ghost use Rattle.pc_model.specs.MessageReading.{body_at, header_at, whole};
ghost use Rattle.pc_offset_wire.specs.Reading.{Gives};

use crate::fields;
use pc_model::WireFault;

/// The bytes after the size, which has to be their number.
#[tactic(auto, unfolding(pc_model::specs::MessageReading::body_at))]
pub(crate) fn body(frame: &[u8]) -> Result<&[u8], WireFault>
    ensures { Gives (λ body. body.now) result (body_at frame.now) }
{
    let (size, body) = fields::count_at(frame)?;
    let size = size as usize;
    if body.len() < size {
        return Err(WireFault::Short);
    }
    if size < body.len() {
        return Err(WireFault::Trailing);
    }
    Ok(body)
}

/// The message, if no bytes are left after it.
pub(crate) fn whole<T: Drop>(message: T, rest: &[u8]) -> Result<T, WireFault>
    ensures { result ≡ whole (message, rest.now) }
{
    if !rest.is_empty() {
        return Err(WireFault::Trailing);
    }
    Ok(message)
}

/// Who asks: the correlation id and the client's id, by the header of a request of a key and a
/// version.
#[tactic(auto, unfolding(pc_model::specs::MessageReading::header_at))]
pub(crate) fn header(
    key: i16,
    version: i16,
    bytes: &[u8],
) -> Result<(i32, Option<&str>, &[u8]), WireFault>
    ensures { Gives (λ x. ((x.0, option_copied x.1), x.2.now)) result
        (header_at key version bytes.now) }
{
    let rest = fields::fixed(key, WireFault::BadKey, bytes)?;
    let rest = fields::fixed(version, WireFault::BadVersion, rest)?;
    let (correlation, rest) = fields::i32_at(rest)?;
    let (client, rest) = fields::nullable(rest)?;
    Ok((correlation, client, rest))
}
