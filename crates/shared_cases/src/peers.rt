//! The cases by their peer AS.
ghost use Rattle.std.specs.Prelude.{◌≡◌, ◌≢◌, ◌↔◌, ◌||◌, ◌&&◌, not, ℕ, nat_eq, [], Some, IsTrue, OnOk};
ghost use Rattle.std.specs.Option.{option_copied};
ghost use Rattle.shared_cases.specs.Numbers.{has};
ghost use Rattle.shared_cases.specs.Peers.{found, has_cases, AddsMember, RemovesMember, HaveMembers};

use crate::numbers::CaseNumbers;
use av_base::NoMemory;
use std::alloc::Global;
use std::collections::{BTreeMap, BTreeSet, btree_set};
use std::marker::Model;

// The numbers of each AS's cases. An AS takes a map entry and 4 to 16 bytes for each of its cases, and 4 to 9 bytes while one of them
// doesn't say that it has a role of its own; and none once its last case is removed.
#[derive(Drop)]
pub(crate) struct Peers {
    alloc: Global,
    // an AS without cases has no entry, as the invariant says
    members: BTreeMap<u32, CaseNumbers>,
    // the ASes that may follow the default role: each with a case that doesn't say that the AS has a role of its own
    defaulted: BTreeSet<u32>,
}

impl Model for Peers {
    ghost use Rattle.shared_cases.specs.Codes.{coded_peers};
    ghost use Rattle.shared_cases.specs.Peers.{ByPeer, HaveCases, HaveMembers};

    ghost Value = { ByPeer };

    ghost coded = { coded_peers };

    ghost view = { λ a. record { members = a.members.entries; defaulted = a.defaulted.keys } };

    ghost invariant = { λ a. HaveMembers a.members.entries
        × HaveCases a.members.entries a.defaulted.keys };
}

impl Peers {
    // No case of any AS. It takes no memory.
    pub(crate) fn new(alloc: Global) -> Peers
        ensures { result ≡ record { members = []; defaulted = [] } }
    {
        Peers {
            alloc,
            members: BTreeMap::new(alloc),
            defaulted: BTreeSet::new(alloc),
        }
    }

    // One case of an AS more; `own` is whether the case says that the AS has a role of its own (`StoredCase::own`). For a number of 2^32 or
    // above there is no memory. Where there was none, nothing is promised: all cases of all ASes are let go.
    pub(crate) fn add(&mut self, asn: u32, number: usize, own: bool) -> Result<(), NoMemory>
        ensures members { OnOk result
            (AddsMember self.old.members asn number self.new.members) }
        ensures defaulted { OnOk result ((a : ℕ)
            → has self.new.defaulted a ≡ (has self.old.defaulted a || (nat_eq a asn && not own))) }
    {
        let alloc = self.alloc;
        match insert_both(
            &mut self.members,
            &mut self.defaulted,
            alloc,
            asn,
            number,
            own,
        ) {
            Ok(()) => Ok(()),
            Err(_) => {
                self.members = BTreeMap::new(alloc);
                self.defaulted = BTreeSet::new(alloc);
                Err(NoMemory)
            }
        }
    }

    // One case of an AS less. It takes no memory.
    pub(crate) fn remove(&mut self, asn: u32, number: u32)
        ensures members { RemovesMember self.old.members asn number self.new.members }
        ensures defaulted { (a : ℕ) → has self.new.defaulted a
            ≡ (has self.old.defaulted a && has_cases self.new.members a) }
    {
        if take_out(&mut self.members, asn, number) {
            self.members.remove(&asn);
            self.defaulted.remove(&asn);
        }
    }

    // Each case of the AS is to say that it has a role of its own. Answered is whether one didn't, so far as it is known. It takes no memory.
    pub(crate) fn set_own(&mut self, asn: u32) -> bool
        ensures members { self.new.members ≡ self.old.members }
        ensures defaulted { (a : ℕ)
            → has self.new.defaulted a ≡ (has self.old.defaulted a && not (nat_eq a asn)) }
        ensures was { result ≡ has self.old.defaulted asn }
    {
        self.defaulted.remove(&asn)
    }

    // The cases of one AS.
    pub(crate) fn of(&self, asn: u32) -> Option<&CaseNumbers>
        ensures { option_copied result ≡ found self.now.members asn }
    {
        self.members.get(&asn)
    }

    // Each AS with a case that doesn't say that the AS has a role of its own, and none without cases, rising.
    pub(crate) fn defaulted(&self) -> btree_set::Iter<'_, u32>
        ensures { result ≡ self.now.defaulted }
    {
        self.defaulted.iter()
    }
}

// Adds a case of an AS, and the AS unless it has a role of its own.
#[inline(always)]
fn insert_both(
    members: &mut BTreeMap<u32, CaseNumbers>,
    defaulted: &mut BTreeSet<u32>,
    alloc: Global,
    asn: u32,
    number: usize,
    own: bool,
) -> Result<(), NoMemory>
    ensures members { OnOk result (AddsMember members.old.entries asn number members.new.entries) }
    ensures defaulted { OnOk result ((a : ℕ)
        → has defaulted.new.keys a ≡ (has defaulted.old.keys a || (nat_eq a asn && not own))) }
    ensures kept { OnOk result (HaveMembers members.old.entries → HaveMembers members.new.entries) }
    ensures cases { OnOk result ((a : ℕ) → has_cases members.new.entries a
        ≡ (has_cases members.old.entries a || nat_eq a asn)) }
{
    insert(members, alloc, asn, number)?;
    insert_unless(defaulted, asn, own)
}

// Adds a case of an AS.
fn insert(
    members: &mut BTreeMap<u32, CaseNumbers>,
    alloc: Global,
    asn: u32,
    number: usize,
) -> Result<(), NoMemory>
    ensures added { OnOk result (AddsMember members.old.entries asn number members.new.entries) }
    ensures kept { OnOk result (HaveMembers members.old.entries → HaveMembers members.new.entries) }
    ensures cases { OnOk result ((a : ℕ) → has_cases members.new.entries a
        ≡ (has_cases members.old.entries a || nat_eq a asn)) }
{
    if let Some(numbers) = members.get_mut(&asn) {
        return numbers.insert(number);
    }
    let mut numbers = CaseNumbers::new(alloc);
    numbers.insert(number)?;
    members.insert(asn, numbers)?;
    Ok(())
}

// Adds an AS, unless it has a role of its own.
fn insert_unless(ases: &mut BTreeSet<u32>, asn: u32, own: bool) -> Result<(), NoMemory>
    ensures { OnOk result ((a : ℕ)
        → has ases.new.keys a ≡ (has ases.old.keys a || (nat_eq a asn && not own))) }
{
    if own {
        return Ok(());
    }
    ases.insert(asn)?;
    Ok(())
}

// Takes a case of an AS out, and answers whether the AS stands there without cases.
fn take_out(members: &mut BTreeMap<u32, CaseNumbers>, asn: u32, number: u32) -> bool
    ensures removed { RemovesMember members.old.entries asn number members.new.entries }
    ensures emptied { IsTrue result ↔ (found members.new.entries asn ≡ Some []) }
    ensures others { (a : ℕ) → a ≢ asn
        → found members.new.entries a ≡ found members.old.entries a }
    ensures cases { has_cases members.new.entries asn ≡ has_cases members.old.entries asn }
{
    match members.get_mut(&asn) {
        None => false,
        Some(numbers) => {
            numbers.remove(number);
            numbers.is_empty()
        }
    }
}
