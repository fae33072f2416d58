//! The current rows once more, each found at once.
ghost use Rattle.std.specs.Prelude.{◌≡◌, ℕ, None, Some, IfOk, OnOk, if◌then◌else◌};
ghost use Rattle.std.specs.BTreeMap.{is_at};
ghost use Rattle.std.specs.Option.{option_copied};
ghost use Rattle.std.specs.Ordering.{nat_cmp};
ghost use Rattle.vap_table.specs.Quick.{quick_row, row_at, IsWithin};

use crate::filter::Filter;
use av_base::NoMemory;
use path_model::AsList;
use std::alloc::Global;
use std::marker::Model;
use std::vec::Vec;
use word_map::WordMap;

// So many numbers of rows that went cost no more than what making the list anew does.
const FEW: usize = 1024;

/// The row of each customer that has one, all in one list: 4 bytes for each provider and 4 more, or up to four times that where many rows went
/// or there is room for more, and 19 to 39 for the place of the row in that list. A filter tells most customers without a row at once; it takes
/// 8 KiB, or 2 to 4 bytes a row where there were many when the list was made.
#[derive(Drop)]
pub(crate) struct QuickRows {
    // where the row of each customer begins
    places: WordMap,
    // of each row how many ASes it has, and these; some rows are no customer's any more
    words: Vec<u32>,
    // marks of the customers that have a row
    filter: Filter,
    // how many of the words are of rows that went; it tells when to make the list anew, and nothing else rests on it
    gone: usize,
}

impl Model for QuickRows {
    ghost use Rattle.vap_table.specs.Codes.{coded_quick};
    ghost use Rattle.vap_table.specs.Quick.{Quick, AreHeld};

    ghost Value = { Quick };

    ghost coded = { coded_quick };

    ghost view = { λ q. (q.places, q.words.items) };

    ghost invariant = { λ q. AreHeld q.places q.words.items q.filter.words.items };
}

impl QuickRows {
    /// No rows. It takes no memory.
    pub(crate) fn new(alloc: Global) -> QuickRows
        ensures { (x : ℕ) → quick_row result x ≡ None }
    {
        QuickRows::with_filter(alloc, Filter::new(alloc))
    }

    /// The same, where so many rows are to come.
    pub(crate) fn with_room(alloc: Global, count: usize) -> Result<QuickRows, NoMemory>
        ensures { IfOk result (λ quick. (x : ℕ) → quick_row quick x ≡ None) }
    {
        Ok(QuickRows::with_filter(alloc, Filter::with_room(alloc, count)?))
    }

    // No rows, and any filter.
    fn with_filter(alloc: Global, filter: Filter) -> QuickRows
        ensures { (x : ℕ) → quick_row result x ≡ None }
    {
        QuickRows {
            places: WordMap::new(alloc),
            words: Vec::new(alloc),
            filter,
            gone: 0,
        }
    }

    /// The row of a customer, if it has one. It costs a look-up in a map of words where the filter has a mark.
    #[inline(always)]
    pub(crate) fn row(&self, customer: u32) -> Option<&[u32]>
        ensures { option_copied result ≡ quick_row self.now customer }
    {
        if !self.filter.may_have(customer) {
            return None;
        }
        match self.places.get(u64::from(customer)) {
            None => None,
            Some(place) => Some(row_at(self.words.as_slice(), place as usize)),
        }
    }

    /// A customer has this row from now on, or none.
    pub(crate) fn set(&mut self, customer: u32, row: Option<&AsList>) -> Result<(), NoMemory>
        ensures { OnOk result ((q : ℕ) → quick_row self.new q
            ≡ (if is_at (nat_cmp customer) q then option_copied row.entry
            else quick_row self.old q)) }
    {
        match row {
            Some(row) => self.put(customer, row.as_slice()),
            None => {
                self.remove(customer);
                Ok(())
            }
        }
    }

    // A customer has this row from now on.
    fn put(&mut self, customer: u32, row: &[u32]) -> Result<(), NoMemory>
        ensures { OnOk result ((q : ℕ) → quick_row self.new q
            ≡ (if is_at (nat_cmp customer) q then Some row.now else quick_row self.old q)) }
    {
        let Ok(place) = u32::try_from(self.words.len()) else {
            return Err(NoMemory);
        };
        let Ok(len) = u32::try_from(row.len()) else {
            return Err(NoMemory);
        };
        self.filter.put(customer)?;
        self.words.push(len)?;
        self.words.extend_from_slice(row)?;
        let before = self.places.set(u64::from(customer), place)?;
        self.count_gone(before);
        Ok(())
    }

    // A customer has no row from now on.
    fn remove(&mut self, customer: u32)
        ensures { (q : ℕ) → quick_row self.new q
            ≡ (if is_at (nat_cmp customer) q then None else quick_row self.old q) }
    {
        let before = self.places.remove(u64::from(customer));
        self.count_gone(before);
    }

    // The row at this place went, if one is given.
    fn count_gone(&mut self, place: Option<u32>)
        ensures { self.new ≡ self.old }
    {
        let Some(place) = place else {
            return;
        };
        if let Some(len) = self.words.get(place as usize) {
            self.gone = self.gone.saturating_add(*len as usize).saturating_add(1);
        }
    }

    /// Whether most of the list is of rows that went, or the filter is small for so many rows.
    pub(crate) fn is_worn(&self) -> bool {
        let has_gaps = self.gone > FEW && self.gone > self.words.len() / 2;
        has_gaps || self.filter.is_crowded(self.places.len())
    }
}

// The row that begins at this place.
#[inline(always)]
fn row_at(words: &[u32], place: usize) -> &[u32]
    requires { IsWithin words.now place }
    ensures { result.now ≡ row_at words.now place }
{
    let len = words[place] as usize;
    &words[place + 1..place + 1 + len]
}
