//! The roster: who may ask, with their groups.
ghost use Rattle.std.specs.Prelude.{◌≡◌, List, [], length, IfOk, OnErr, if◌then◌else◌};
ghost use Rattle.std.specs.List.{slice_get};
ghost use Rattle.std.specs.Option.{option_map};
ghost use Rattle.room_acl.specs.SubjectModel.{SubjectModel};
ghost use Rattle.room_records.specs.Roster.{IsRoster, IsIndexOf, may_join, with_user, groups_of};

use crate::limits::{MAX_GROUPS, MAX_USERS};
use room_acl::{Principal, Subject};
use std::alloc::{AllocError, Global};
use std::cmp::Ordering;
use std::marker::Model;

/// The users with their groups, in name order by bytes, no user twice: at most 1,000 users, with at
/// most 16 groups each (our own rule).
#[derive(Debug, Drop)]
pub struct Roster {
    alloc: Global,
    users: Vec<Subject>,
}

impl Model for Roster {
    ghost use Rattle.std.specs.Prelude.{List};
    ghost use Rattle.room_acl.specs.SubjectModel.{SubjectModel};
    ghost use Rattle.room_records.specs.Roster.{IsRoster};

    ghost Value = { List SubjectModel };

    ghost view = { λ r. r.users.items };

    ghost invariant = { λ r. IsRoster r.users.items };
}

impl Roster {
    /// A roster without users.
    pub fn empty(alloc: Global) -> Roster
        ensures { result ≡ [] }
    {
        Roster {
            alloc,
            users: Vec::new(alloc),
        }
    }

    /// Adds a user in its place. `false`, with nothing changed, where the user is there already,
    /// 1,000 users are there, or more than 16 groups are given, a repeated one counted twice.
    /// An `Err` changes nothing.
    pub fn add(&mut self, user: Principal, groups: Vec<Principal>) -> Result<bool, AllocError>
        ensures ok { IfOk result (λ added. added ≡ may_join self.old user groups.items) }
        ensures users { IfOk result (λ added.
            self.new
            ≡ (if added then with_user self.old (record { name = user; groups = groups.items }) else self.old)) }
        ensures err { OnErr result (self.new ≡ self.old) }
    {
        if groups.len() > MAX_GROUPS || self.users.len() >= MAX_USERS {
            return Ok(false);
        }
        let Err(place) = index_of(self.users.as_slice(), &user) else {
            return Ok(false);
        };
        let user = Subject { name: user, groups };
        self.users.insert(place, user)?;
        Ok(true)
    }

    /// A copy of the roster, which grows in the same allocator. `AllocError` where memory is refused.
    pub fn clone(&self) -> Result<Roster, AllocError>
        ensures { IfOk result (λ copy. copy ≡ self.now) }
    {
        let mut users = Vec::new(self.alloc);
        for user in &self.users {
            users.push(user.clone()?)?;
        }
        Ok(Roster {
            alloc: self.alloc,
            users,
        })
    }

    /// The groups of a user, `None` where the user is not there.
    pub fn groups(&self, user: &Principal) -> Option<&[Principal]>
        ensures { option_map (λ groups. groups.now) result ≡ groups_of self.now user.now }
    {
        match index_of(self.users.as_slice(), user) {
            Ok(place) => Some(self.users[place].groups.as_slice()),
            Err(_) => None,
        }
    }

    /// How many users there are.
    pub fn len(&self) -> usize
        ensures value { result ≡ length self.now }
        ensures lawful { IsRoster self.now }
    {
        self.users.len()
    }

    /// The user at this place in name order.
    pub fn user(&self, place: usize) -> Option<(&Principal, &[Principal])>
        ensures value { option_map (λ p. record { name = p.0.now; groups = p.1.now }) result
            ≡ slice_get self.now place }
        ensures lawful { IsRoster self.now }
    {
        match self.users.get(place) {
            Some(user) => Some((&user.name, user.groups.as_slice())),
            None => None,
        }
    }
}

/// Where the user of this name stands, or else where it would stand.
fn index_of(users: &[Subject], name: &Principal) -> Result<usize, usize>
    ensures { IsIndexOf users.now name.now result }
{
    for (place, user) in users.iter().enumerate() {
        match name.text().cmp(user.name.text()) {
            Ordering::Less => return Err(place),
            Ordering::Equal => return Ok(place),
            Ordering::Greater => {}
        }
    }
    Err(users.len())
}
