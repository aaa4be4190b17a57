//! The commit of a part in its present state.

ghost use Rattle.std.specs.Prelude.{◌≡◌, ◌<◌, ◌≤◌, ◌^◌, ℕ, [], List, length, IfOk, IsOk, Some};
ghost use Rattle.pc_model.specs.Marks.{Mark, bits_at, commit_at, position_at};
ghost use Rattle.pc_partition.specs.Window.{StandsFor, some_bits};

use pc_choice::{choose, shortest_of};
use pc_model::{Commit, MapText, SizedCommit};
use pc_partition::PartitionState;
use std::alloc::{AllocError, Global};

/// The part's position with the best map within the limit, and that map's size. A map that is
/// longer is left out whole.
///
/// The lengths are compared before there are bits, so that a commit without a map takes no memory.
pub fn commit_of(
    alloc: Global,
    state: &PartitionState,
    limit: u32,
) -> Result<SizedCommit, AllocError>
    ensures commit { IfOk result (λ commit. (begin n : ℕ) (marks : List Mark)
        → StandsFor state.now.window begin n marks → commit ≡ commit_at limit begin marks) }
    ensures without_memory { (begin n : ℕ) (marks : List Mark)
        → StandsFor state.now.window begin n marks
        → (commit_at limit begin marks).commit.map ≡ [] → IsOk result }
    ensures position { IfOk result (λ commit. commit.commit.position < 2 ^ 63) }
    ensures map { IfOk result (λ commit. length commit.commit.map ≤ limit) }
{
    let position = state.position();
    let Some(lengths) = state.lengths() else {
        return Ok(without_map(alloc, position, 0));
    };
    let shortest = shortest_of(
        lengths.bitset,
        lengths.runlength,
        lengths.bitset2,
        lengths.runlength2,
    );
    match shortest {
        None => Ok(without_map(alloc, position, u32::MAX)),
        Some((_, size)) if size > limit => Ok(without_map(alloc, position, size)),
        Some(_) => with_map(alloc, state, limit),
    }
}

// A commit without a map, where a map has this size.
fn without_map(alloc: Global, position: u64, size: u32) -> SizedCommit
    ensures position { result.commit.position ≡ position }
    ensures map { result.commit.map ≡ [] }
    ensures size { result.size ≡ size }
{
    SizedCommit {
        commit: Commit {
            position,
            map: MapText::empty(alloc),
        },
        size,
    }
}

// A commit with the best map of the bits.
fn with_map(alloc: Global, state: &PartitionState, limit: u32) -> Result<SizedCommit, AllocError>
    ensures commit { IfOk result (λ commit. (begin n : ℕ) (marks : List Mark)
        → StandsFor state.now.window begin n marks → commit ≡ commit_at limit begin marks) }
    ensures position { IfOk result (λ commit. commit.commit.position < 2 ^ 63) }
    ensures map { IfOk result (λ commit. length commit.commit.map ≤ limit) }
{
    let position = state.position();
    let Some(bits) = state.bits()? else {
        return Ok(without_map(alloc, position, 0));
    };
    let choice = choose(alloc, &bits, limit)?;
    Ok(SizedCommit {
        commit: Commit {
            position,
            map: choice.text,
        },
        size: choice.size,
    })
}
