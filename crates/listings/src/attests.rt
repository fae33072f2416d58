//! The current table as a script.
ghost use Rattle.std.specs.Prelude.{◌≡◌};
ghost use Rattle.vap_table.specs.Entries.{entries_left};
ghost use Rattle.listings.specs.Attests.{AreAttested, attested_row};
ghost use Rattle.listings.specs.EachAttested.{pieces};
ghost use Rattle.listings.specs.Listing.{Lists, pouring};

use crate::listing::{Listing, put_all};
use av_base::{NoMemory, Sink, Stop};
use report_text::put_assertion;
use vap_table::{Entries, Vaps};

// The providers that are left of a customer's row, and the customers that are left behind it.
#[derive(Drop)]
struct AttestedLines<'a> {
    customer: u32,
    left: &'a [u32],
    entries: Entries<'a>,
}

impl<'a> Listing for AttestedLines<'a> {
    ghost left = { λ l. pieces l.customer l.left.now (entries_left l.entries) };

    fn put_next(&mut self, text: &mut Vec<u8>) -> Result<bool, NoMemory> {
        if self.left.is_empty() {
            let Some((customer, row)) = self.entries.next() else {
                return Ok(false);
            };
            self.customer = customer;
            self.left = row.as_slice();
        }
        let taken = put_assertion(text, self.customer, self.left)?;
        self.left = &self.left[taken..];
        Ok(true)
    }
}

/// Lists the current table as a script that asserts it: for each customer with a row, by rising number, lines `assert CUSTOMER P..`, each with
/// as many of its providers as a line of a script has room for, and `assert CUSTOMER 0` of an empty row. The text is held, and written in
/// pieces.
pub fn put_attests<W: Sink>(table: &Vaps, out: &mut W, text: &mut Vec<u8>) -> Result<(), Stop>
    ensures { Lists (AreAttested table.now) attested_row
        (pouring W.Sink out.old text.old.items) (pouring W.Sink out.new text.new.items) result }
{
    let mut listing = AttestedLines {
        customer: 0,
        left: &[],
        entries: table.entries(),
    };
    put_all(&mut listing, out, text)
}
