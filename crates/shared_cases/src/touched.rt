//! Which cases a change touches.
ghost use Rattle.std.specs.Prelude.{◌≡◌, ◌↔◌, true, false, ℕ, ◌||◌, ◌⊎◌, IfOk, IsTrue, OnOk};
ghost use Rattle.std.specs.List.Sorted.{IsStrictlySortedBy};
ghost use Rattle.std.specs.Ordering.{nat_cmp};
ghost use Rattle.hop_index.specs.Index.{has as hops_have};
ghost use Rattle.path_model.specs.Roles.{role_of};
ghost use Rattle.shared_cases.specs.Numbers.{has};
ghost use Rattle.shared_cases.specs.Peers.{is_member, HasMovedMember, IsMovedMember};
ghost use Rattle.shared_cases.specs.Touching.{AreAllOf, IsTouchedAt, IsTouchedBy};

use crate::found::FoundCases;
use crate::moved_rows::MovedRows;
use crate::peers::Peers;
use attestations::{Moves, RowMove};
use av_base::NoMemory;
use hop_index::HopIndex;
use path_model::{Role, Roles};
use std::alloc::Global;
use std::vec::Vec;

// The cases that some move touches, rising. It takes the time of a look-up for each move; where its customer has hops, also of a walk over its
// rows, of a look-up for each AS that is in one row alone or, where its hops are fewer or there is one row only, for each of its neighbours, and
// of what is found.
pub(crate) fn touched_by_moves(
    alloc: Global,
    index: &HopIndex,
    moves: &Moves,
) -> Result<Vec<u32>, NoMemory>
    ensures touched { IfOk result (λ touched. (n : ℕ)
        → (has touched.items n ≡ true) ↔ IsTouchedBy index.now moves.now n) }
    ensures rising { IfOk result (λ touched. IsStrictlySortedBy nat_cmp touched.items) }
{
    let mut found = FoundCases::new(alloc);
    for row_move in moves.as_slice() {
        touch(alloc, index, row_move, &mut found)?;
    }
    found.into_rising()
}

// The cases of the ASes without a role of their own, rising, where the default was `before` and is another one. Only the ASes with a case that
// doesn't say that they have one are gone over: it takes the time of two look-ups for each, and of what is found; where the default is the
// same, none.
pub(crate) fn touched_by_default(
    alloc: Global,
    peers: &Peers,
    before: Role,
    roles: &Roles,
) -> Result<Vec<u32>, NoMemory>
    ensures others { IfOk result (λ touched. (asn n : ℕ) → has peers.now.defaulted asn ≡ true
        → is_member peers.now.members asn n ≡ true → has touched.items n ≡ false
        → role_of (record roles.now { default = before }) asn ≡ role_of roles.now asn) }
    ensures only { IfOk result (λ touched. (n : ℕ) → has touched.items n ≡ true
        → HasMovedMember peers.now.members (record roles.now { default = before }) roles.now n) }
    ensures rising { IfOk result (λ touched. IsStrictlySortedBy nat_cmp touched.items) }
{
    if is_same_role(before, roles.default()) {
        return Ok(Vec::new(alloc));
    }
    let mut found = FoundCases::new(alloc);
    for asn in peers.defaulted() {
        if roles.has_own(*asn) {
            continue;
        }
        touch_members(peers, *asn, &mut found)?;
    }
    found.into_rising()
}

// The cases of an AS, rising, if its role is another one. It takes the time of a look-up, and of what is found.
pub(crate) fn touched_by_role(
    alloc: Global,
    peers: &Peers,
    asn: u32,
    before: Role,
    after: Role,
) -> Result<Vec<u32>, NoMemory>
    ensures others { IfOk result (λ touched. (n : ℕ) → is_member peers.now.members asn n ≡ true
        → has touched.items n ≡ false → before ≡ after) }
    ensures only { IfOk result (λ touched. (n : ℕ) → has touched.items n ≡ true
        → IsMovedMember peers.now.members asn before after n) }
    ensures rising { IfOk result (λ touched. IsStrictlySortedBy nat_cmp touched.items) }
{
    if is_same_role(before, after) {
        return Ok(Vec::new(alloc));
    }
    let mut found = FoundCases::new(alloc);
    touch_members(peers, asn, &mut found)?;
    found.into_rising()
}

// The cases of an AS come to the others.
fn touch_members(peers: &Peers, asn: u32, touched: &mut FoundCases) -> Result<(), NoMemory>
    ensures { OnOk result ((n : ℕ)
        → has touched.new n ≡ (has touched.old n || is_member peers.now.members asn n)) }
{
    match peers.of(asn) {
        None => Ok(()),
        Some(numbers) => touched.push_all(numbers),
    }
}

// The cases that a move touches come to the others. Its rows are read only where its customer has a hop. Then the ASes that are in one row
// alone are looked up among the customer's hops; where the hops are fewer, or all that the customer attests is new or gone, its neighbours are
// looked up in the rows.
fn touch(
    alloc: Global,
    index: &HopIndex,
    row_move: &RowMove,
    touched: &mut FoundCases,
) -> Result<(), NoMemory>
    ensures { OnOk result ((n : ℕ) → (has touched.new n ≡ true)
        ↔ ((has touched.old n ≡ true) ⊎ IsTouchedAt index.now row_move.now n)) }
{
    let mut ends = index.through(row_move.customer);
    if ends.next().is_none() {
        return Ok(());
    }
    let rows = MovedRows::new(row_move);
    let Some(asked) = rows.unmatched(alloc)? else {
        return touch_ends(index, &rows, touched);
    };
    if ends.nth(asked.len()).is_none() {
        touch_ends(index, &rows, touched)
    } else {
        touch_asked(index, &rows, asked.as_slice(), touched)
    }
}

// The same, where each neighbour of the customer is looked up in the rows.
fn touch_ends(
    index: &HopIndex,
    rows: &MovedRows<'_>,
    touched: &mut FoundCases,
) -> Result<(), NoMemory>
    ensures { OnOk result ((n : ℕ) → (has touched.new n ≡ true)
        ↔ ((has touched.old n ≡ true) ⊎ IsTouchedAt index.now rows.now n)) }
{
    for provider in index.neighbours(rows.customer()) {
        if rows.is_moved(provider) {
            touched.push_hop(index, rows.customer(), provider)?;
        }
    }
    Ok(())
}

// The same, where `asked` has each AS of which the customer attests another thing than before, and maybe more: each that is one is looked
// up among the customer's hops.
fn touch_asked(
    index: &HopIndex,
    rows: &MovedRows<'_>,
    asked: &[u32],
    touched: &mut FoundCases,
) -> Result<(), NoMemory>
    requires { AreAllOf asked.now rows.now }
    ensures { OnOk result ((n : ℕ) → (has touched.new n ≡ true)
        ↔ ((has touched.old n ≡ true) ⊎ IsTouchedAt index.now rows.now n)) }
{
    for provider in asked {
        if rows.is_moved(*provider) {
            touched.push_hop(index, rows.customer(), *provider)?;
        }
    }
    Ok(())
}

fn is_same_role(one: Role, other: Role) -> bool
    ensures { IsTrue result ↔ (one ≡ other) }
{
    one == other
}
