//! The commits that a broker stores, in the order in which their groups and parts came first.

ghost use Rattle.std.specs.Prelude.{◌≡◌, ◌+◌, ◌≤◌, ◌<◌, find, map, option_map, vec_capacity, vec_len, IfOk};
ghost use Rattle.std.specs.List.{position};
ghost use Rattle.std.specs.Option.{option_copied};
ghost use Rattle.pc_model.specs.Broker.{is_for, put_stored};
ghost use Rattle.pc_offset_store.specs.Store.{put_each, stored_of};

use pc_model::{Commit, MapText};
use std::alloc::{AllocError, Global};

/// The commit of a group and a part.
#[derive(Debug, Drop)]
pub struct GroupCommit {
    pub group: String,
    pub part: u32,
    pub commit: Commit,
}

impl GroupCommit {
    /// The commit with copies of these texts. The only error is out of memory.
    pub fn of(
        alloc: Global,
        group: &str,
        part: u32,
        position: u64,
        map: &str,
    ) -> Result<GroupCommit, AllocError>
        ensures { IfOk result (λ c. stored_of c ≡ record {
          group = group.now;
          part = part;
          commit = record { position = position; map = map.now };
        }) }
    {
        Ok(GroupCommit {
            group: String::from_str(alloc, group)?,
            part,
            commit: Commit {
                position,
                map: MapText::from_str(alloc, map)?,
            },
        })
    }

    /// Whether it is that of the group and the part.
    fn is_for(&self, group: &str, part: u32) -> bool
        ensures { result ≡ is_for group.now part (stored_of self.now) }
    {
        self.group.as_str() == group && self.part == part
    }
}

/// The place of the commit of a group and a part, if there is one.
fn place_of(commits: &[GroupCommit], group: &str, part: u32) -> Option<usize>
    ensures { result ≡ position (λ c. is_for group.now part (stored_of c)) commits.now }
{
    commits.iter().position(|c| c.is_for(group, part))
}

/// The commit of a group and a part, if there is one.
pub fn find<'a>(commits: &'a [GroupCommit], group: &str, part: u32) -> Option<&'a GroupCommit>
    ensures { option_copied result
        ≡ find (λ c. is_for group.now part (stored_of c)) commits.now }
{
    commits.iter().find(|c| c.is_for(group, part))
}

/// Puts a commit, in the place of that of its group and part if there is one. Takes no memory.
pub fn put(commits: &mut Vec<GroupCommit>, commit: GroupCommit)
    requires { vec_len commits.old < vec_capacity commits.old }
    ensures put { map stored_of commits.new.items
        ≡ put_stored (stored_of commit) (map stored_of commits.old.items) }
    ensures len { vec_len commits.new ≤ vec_len commits.old + 1 }
    ensures room { vec_capacity commits.new ≡ vec_capacity commits.old }
{
    match place_of(commits.as_slice(), commit.group.as_str(), commit.part) {
        Some(place) => commits[place] = commit,
        None => commits.push_reserved(commit),
    }
}

/// Puts each of the commits in their order. Takes no memory.
pub fn put_all(commits: &mut Vec<GroupCommit>, others: Vec<GroupCommit>)
    requires { vec_len commits.old + vec_len others ≤ vec_capacity commits.old }
    ensures { map stored_of commits.new.items
        ≡ put_each (map stored_of others.items) (map stored_of commits.old.items) }
{
    for commit in others {
        put(commits, commit);
    }
}
