//! The roles of the peers.
ghost use Rattle.std.specs.Prelude.{◌≡◌, is_some, ℕ, OnOk, OnErr};
ghost use Rattle.path_model.specs.declared.role.Role.{Role as AnyRole};
ghost use Rattle.std.specs.FinMap as map;
ghost use Rattle.std.specs.Iterator.{YieldsFirstBy, item_count};
ghost use Rattle.std.specs.List.Sorted.{IsStrictlySortedBy};
ghost use Rattle.std.specs.Map.{keys_of};
ghost use Rattle.std.specs.Ordering.{nat_cmp};
ghost use Rattle.path_model.specs.Entries.{own_left};
ghost use Rattle.path_model.specs.Roles.{role_of, set_role, no_roles};

use crate::Role;
use av_base::NoMemory;
use std::alloc::Global;
use std::collections::{BTreeMap, btree_map};
use std::marker::Model;

/// The role of each neighbouring AS: the one that was set for it, or else the default.
#[derive(Debug, Drop)]
pub struct Roles {
    set: BTreeMap<u32, Role>,
    default: Role,
}

impl Model for Roles {
    ghost use Rattle.std.specs.FinMap as map;
    ghost use Rattle.path_model.specs.Roles.{Relations, coded_relations};

    ghost Value = { Relations };

    ghost coded = { coded_relations };

    ghost view = { λ r. record { set = map.from_entries r.set.entries; default = r.default } };
}

impl Roles {
    /// No role is set, and the default is `Provider`. It takes no memory.
    pub fn new(alloc: Global) -> Roles
        ensures { result ≡ no_roles }
    {
        Roles {
            set: BTreeMap::new(alloc),
            default: Role::Provider,
        }
    }

    /// Sets the role of an AS.
    pub fn set(&mut self, asn: u32, role: Role) -> Result<(), NoMemory>
        ensures ok { OnOk result (self.new ≡ set_role self.old asn role) }
        ensures err { OnErr result (self.new ≡ self.old) }
    {
        self.set.insert(asn, role)?;
        Ok(())
    }

    /// Sets the role of each AS that has none of its own. It takes no memory.
    pub fn set_default(&mut self, role: Role)
        ensures { self.new ≡ record self.old { default = role } }
    {
        self.default = role;
    }

    /// The role of an AS. It takes no memory.
    pub fn of(&self, asn: u32) -> Role
        ensures { result ≡ role_of self.now asn }
    {
        match self.set.get(&asn) {
            Some(role) => *role,
            None => self.default,
        }
    }

    /// The default.
    pub fn default(&self) -> Role
        ensures { result ≡ self.now.default }
    {
        self.default
    }

    /// Whether a role was set for the AS.
    pub fn has_own(&self, asn: u32) -> bool
        ensures { result ≡ is_some (map.get self.now.set asn) }
    {
        self.set.contains_key(&asn)
    }

    /// The ASes for which a role was set, each with it, by rising AS. It takes no memory.
    pub fn own(&self) -> OwnRoles<'_>
        ensures whole { map.from_entries (own_left result) ≡ self.now.set }
        ensures rising { IsStrictlySortedBy nat_cmp (keys_of (own_left result)) }
    {
        OwnRoles {
            inner: self.set.iter(),
        }
    }
}

/// The ASes for which a role was set, each with it, by rising AS.
#[derive(Drop)]
pub struct OwnRoles<'a> {
    pub(crate) inner: btree_map::Iter<'a, u32, Role>,
}

impl<'a> Iterator for OwnRoles<'a> {
    type Item = (u32, Role);

    ghost next_gives = { YieldsFirstBy (λ (i : ℕ × AnyRole). i) own_left };

    ghost remaining = { item_count own_left };

    fn next(&mut self) -> Option<(u32, Role)> {
        match self.inner.next() {
            Some((asn, role)) => Some((*asn, *role)),
            None => None,
        }
    }
}
