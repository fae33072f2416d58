//! Where the row of one customer comes from.
ghost use Rattle.std.specs.Prelude.{◌≡◌, ◌++◌, All, map, flat_map, OnOk, OnErr};
ghost use Rattle.std.specs.Option.{option_copied};
ghost use Rattle.attestations.specs.Attested.{listed};
ghost use Rattle.path_model.specs.Authority.{has};
ghost use Rattle.path_model.specs.Name.{IsName};
ghost use Rattle.report_text.specs.Attested.{with_lf};
ghost use Rattle.listings.specs.AttestsOf.{AreAttestsOf, source_lines, term_line};
ghost use Rattle.listings.specs.EachAttests.{assertion_of, filters_of, sources_text, term_pieces, text_at};
ghost use Rattle.listings.specs.Listing.{Listed, Lists, pouring};

use crate::listing::{Listing, put_all};
use attestations::{Attested, Term, Terms};
use av_base::{NoMemory, Sink, Stop};
use path_model::{AsList, Name};
use report_text::{LocalPart, put_asserted, put_current_row, put_filtered, put_source};
use vap_table::Vaps;

// A line behind those of the sources, which may be left out.
#[derive(Clone, Copy, Debug)]
enum LocalLine {
    // what a local part asserts
    Asserted(LocalPart),
    // that it filters the customer out
    Filtered(LocalPart),
    // the current row
    Row,
}

// All of them, in their order.
const LOCAL_LINES: [LocalLine; 5] = [
    LocalLine::Asserted(LocalPart::Slurm),
    LocalLine::Asserted(LocalPart::Hand),
    LocalLine::Filtered(LocalPart::Slurm),
    LocalLine::Filtered(LocalPart::Hand),
    LocalLine::Row,
];

// The attestations of a source that are left.
#[derive(Drop)]
struct SourceLines<'a> {
    moment: u32,
    name: &'a Name,
    left: Attested<'a>,
}

impl<'a> Listing for SourceLines<'a> {
    ghost left = { λ l. term_pieces l.moment l.name.now (listed l.left) };

    fn put_next(&mut self, text: &mut Vec<u8>) -> Result<bool, NoMemory> {
        match self.left {
            Attested::Row(providers) => {
                put_source(text, self.name, None, providers.as_slice(), false)?;
                self.left = Attested::Terms(&[]);
            }
            Attested::Terms(terms) => {
                let Some((term, more)) = terms.split_first() else {
                    return Ok(false);
                };
                put_term(text, self.name, term, self.moment)?;
                self.left = Attested::Terms(more);
            }
        }
        Ok(true)
    }
}

// The lines behind the sources that are left.
#[derive(Drop)]
struct LocalLines<'a> {
    table: &'a Vaps,
    customer: u32,
    left: &'a [LocalLine],
}

impl<'a> Listing for LocalLines<'a> {
    ghost left = { λ l. map (text_at l.table.now l.customer) l.left.now };

    fn put_next(&mut self, text: &mut Vec<u8>) -> Result<bool, NoMemory> {
        let Some((line, more)) = self.left.split_first() else {
            return Ok(false);
        };
        put_local(text, self.table, self.customer, *line)?;
        self.left = more;
        Ok(true)
    }
}

/// Lists where the row of a customer comes from: a line for each attestation of it in each source, the sources in their order and the
/// attestations of one in the order of these; then what the SLURM file asserts of it, and what is asserted by hand; then whether one or the
/// other filters it out; and last its current row. The text is held, and written in pieces; a line is as long as the providers on it ask
/// for.
pub fn put_attests_of<W: Sink>(
    table: &Vaps,
    customer: u32,
    out: &mut W,
    text: &mut Vec<u8>,
) -> Result<(), Stop>
    ensures { Lists (AreAttestsOf table.now customer) with_lf
        (pouring W.Sink out.old text.old.items) (pouring W.Sink out.new text.new.items) result }
{
    let sources = table.sources();
    look_at_names(sources);
    put_sources(sources, table.moment(), customer, out, text)?;
    let mut listing = LocalLines {
        table,
        customer,
        left: &LOCAL_LINES,
    };
    put_all(&mut listing, out, text)
}

// Each name, as it is looked at, says that it is one; nothing is done.
fn look_at_names(sources: &[(Name, Terms)])
    ensures { All (λ source. IsName source.0) sources.now }
{
    for (name, _terms) in sources {
        let _text = name.text();
    }
}

// Lists what each of these sources attests of a customer.
fn put_sources<W: Sink>(
    sources: &[(Name, Terms)],
    moment: u32,
    customer: u32,
    out: &mut W,
    text: &mut Vec<u8>,
) -> Result<(), Stop>
    ensures { Listed (sources_text moment customer sources.now)
        (pouring W.Sink out.old text.old.items) (pouring W.Sink out.new text.new.items) result }
{
    for source in sources {
        put_source_lines(source, moment, customer, out, text)?;
    }
    Ok(())
}

// Lists what a source attests of a customer.
fn put_source_lines<W: Sink>(
    source: &(Name, Terms),
    moment: u32,
    customer: u32,
    out: &mut W,
    text: &mut Vec<u8>,
) -> Result<(), Stop>
    ensures { Listed (flat_map with_lf (source_lines moment customer source.now))
        (pouring W.Sink out.old text.old.items) (pouring W.Sink out.new text.new.items) result }
{
    let Some(left) = source.1.of_customer(customer) else {
        return Ok(());
    };
    let name = &source.0;
    let mut listing = SourceLines { moment, name, left };
    put_all(&mut listing, out, text)
}

// Adds the line of an attestation.
fn put_term(text: &mut Vec<u8>, name: &Name, term: &Term, moment: u32) -> Result<(), NoMemory>
    ensures ok { OnOk result
        (text.new.items ≡ text.old.items ++ with_lf (term_line moment name.now term.now)) }
    ensures err { OnErr result (text.new.items ≡ text.old.items) }
{
    let ended = !term.is_alive(moment);
    put_source(text, name, term.until, term.providers.as_slice(), ended)
}

// Adds one of the lines behind the sources, or nothing.
fn put_local(
    text: &mut Vec<u8>,
    table: &Vaps,
    customer: u32,
    line: LocalLine,
) -> Result<(), NoMemory>
    ensures ok { OnOk result
        (text.new.items ≡ text.old.items ++ text_at table.now customer line) }
    ensures err { OnErr result (text.new.items ≡ text.old.items) }
{
    match line {
        LocalLine::Asserted(part) => match asserted(table, customer, part) {
            None => Ok(()),
            Some(providers) => put_asserted(text, part, providers.as_slice()),
        },
        LocalLine::Filtered(part) => {
            if is_filtered(table, customer, part) {
                put_filtered(text, part)
            } else {
                Ok(())
            }
        }
        LocalLine::Row => put_current_row(text, table.row(customer)),
    }
}

// What a local part asserts of a customer.
fn asserted(table: &Vaps, customer: u32, part: LocalPart) -> Option<&AsList>
    ensures { option_copied result ≡ assertion_of table.now customer part }
{
    match part {
        LocalPart::Slurm => table.slurm_assertion(customer),
        LocalPart::Hand => table.assertion(customer),
    }
}

// Whether a local part filters a customer out.
fn is_filtered(table: &Vaps, customer: u32, part: LocalPart) -> bool
    ensures { result ≡ has (filters_of table.now part) customer }
{
    match part {
        LocalPart::Slurm => table.is_slurm_filtered(customer),
        LocalPart::Hand => table.is_filtered(customer),
    }
}
