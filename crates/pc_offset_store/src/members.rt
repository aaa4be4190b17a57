//! The members of a group.

ghost use Rattle.std.specs.Prelude.{◌≡◌, ◌<◌, bytes_eq, find, map, vec_capacity, vec_len, IfOk};
ghost use Rattle.std.specs.List.{list_any, position};
ghost use Rattle.std.specs.Option.{option_copied};
ghost use Rattle.pc_model.specs.Broker.{membership_refusal, put_membership};
ghost use Rattle.pc_offset_store.specs.Store.{membership_of};

use pc_model::api::{ILLEGAL_GENERATION, UNKNOWN_MEMBER_ID};
use std::alloc::{AllocError, Global};
use std::marker::Model;

/// The id of a member of a group. Clauses see it as its bytes.
#[derive(Debug, Drop)]
pub struct MemberId {
    text: String,
}

impl Model for MemberId {
    ghost use Rattle.std.specs.Prelude.{ℕ, List, string_bytes};

    ghost Value = { List ℕ };

    ghost view = { λ m. string_bytes m.text };
}

impl MemberId {
    /// A copy of the text. The only error is out of memory.
    pub fn from_str(alloc: Global, text: &str) -> Result<MemberId, AllocError>
        ensures { IfOk result (λ m. m ≡ text.now) }
    {
        Ok(MemberId {
            text: String::from_str(alloc, text)?,
        })
    }

    /// The text, lent.
    pub fn as_str(&self) -> &str
        ensures { result.now ≡ self.now }
    {
        self.text.as_str()
    }
}

/// A group that has a generation.
#[derive(Debug, Drop)]
pub struct Group {
    pub name: String,
    pub generation: i32,
    pub members: Vec<MemberId>,
}

impl Group {
    /// The group with copies of these texts. The only error is out of memory.
    pub fn of(
        alloc: Global,
        name: &str,
        generation: i32,
        members: &[MemberId],
    ) -> Result<Group, AllocError>
        ensures { IfOk result (λ g. membership_of g ≡ record
            { group = name.now; generation = generation; members = members.now }) }
    {
        Ok(Group {
            name: String::from_str(alloc, name)?,
            generation,
            members: copies_of(alloc, members)?,
        })
    }

    /// Whether it has this name.
    fn is_called(&self, name: &str) -> bool
        ensures { result ≡ bytes_eq (membership_of self.now).group name.now }
    {
        self.name.as_str() == name
    }

    /// Whether a member is one of its members.
    fn has_member(&self, member: &str) -> bool
        ensures { result ≡ list_any (bytes_eq member.now) (membership_of self.now).members }
    {
        self.members.as_slice().iter().any(|m| member == m.as_str())
    }

    /// Why it refuses a commit of this member and generation, if it does.
    pub fn refusal(&self, member: &str, generation: i32) -> Option<i16>
        ensures { result
            ≡ membership_refusal (Some (membership_of self.now)) member.now generation }
    {
        if !self.has_member(member) {
            return Some(UNKNOWN_MEMBER_ID);
        }
        if self.generation != generation {
            return Some(ILLEGAL_GENERATION);
        }
        None
    }
}

/// Copies of the members' ids.
fn copies_of(alloc: Global, members: &[MemberId]) -> Result<Vec<MemberId>, AllocError>
    ensures { IfOk result (λ copies. copies.items ≡ members.now) }
{
    let mut copies = Vec::new(alloc);
    for member in members {
        copies.push(MemberId::from_str(alloc, member.as_str())?)?;
    }
    Ok(copies)
}

/// The group of a name, if there is one.
pub fn find<'a>(groups: &'a [Group], name: &str) -> Option<&'a Group>
    ensures { option_copied result
        ≡ find (λ g. bytes_eq (membership_of g).group name.now) groups.now }
{
    groups.iter().find(|g| g.is_called(name))
}

/// Puts a group, in the place of that of its name if there is one. Takes no memory.
pub fn put(groups: &mut Vec<Group>, group: Group)
    requires { vec_len groups.old < vec_capacity groups.old }
    ensures { map membership_of groups.new.items
        ≡ put_membership (membership_of group) (map membership_of groups.old.items) }
{
    match place_of(groups.as_slice(), group.name.as_str()) {
        Some(place) => groups[place] = group,
        None => groups.push_reserved(group),
    }
}

/// The place of the group of a name, if there is one.
fn place_of(groups: &[Group], name: &str) -> Option<usize>
    ensures { result ≡ position (λ g. bytes_eq (membership_of g).group name.now) groups.now }
{
    groups.iter().position(|g| g.is_called(name))
}
