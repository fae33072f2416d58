//! What counts of an attribute field.
use crate::merging::trail_along;
use crate::pieces::{Prefixes, Segments};
use av_base::NoMemory;
use path_model::{Otc, Trail};
use std::alloc::Global;
use std::marker::Model;

// The AS that stands for one of four bytes where only two fit (RFC 6793, section 9).
const AS_TRANS: u32 = 23456;

/// What counts of an attribute field, as slices of it.
#[derive(Debug, Drop)]
pub struct Attrs<'a> {
    pub(crate) path: Option<Segments<'a>>,
    pub(crate) path4: Option<Segments<'a>>,
    // the AS of AGGREGATOR
    pub(crate) aggregator: Option<u32>,
    // whether AS4_AGGREGATOR is there
    pub(crate) aggregator4: bool,
    pub(crate) otc: Otc,
    pub(crate) announced: Option<Prefixes<'a>>,
    pub(crate) withdrawn: Option<Prefixes<'a>>,
}

impl<'a> Model for Attrs<'a> {
    ghost use Rattle.std.specs.Prelude.{option_map};
    ghost use Rattle.bgp_attrs.specs.Left.{segments_left, prefixes_left};
    ghost use Rattle.bgp_attrs.specs.Parts.{IsShort};
    ghost use Rattle.bgp_attrs.specs.Reading.{Reading};

    ghost Value = { Reading };

    ghost view = { λ a. record {
      path = option_map segments_left a.path;
      path4 = option_map segments_left a.path4;
      aggregator = a.aggregator;
      aggregator4 = a.aggregator4;
      otc = a.otc;
      announced = option_map prefixes_left a.announced;
      withdrawn = option_map prefixes_left a.withdrawn;
    } };

    ghost invariant = { λ a. IsShort a.path };
}

impl<'a> Attrs<'a> {
    ghost use Rattle.std.specs.Prelude.{◌≡◌, option_map, IfOk};
    ghost use Rattle.bgp_attrs.specs.Left.{segments_left, prefixes_left};
    ghost use Rattle.bgp_attrs.specs.Merging.{trail_in, used_in};

    /// The segments of AS_PATH; `None` exactly where there is none.
    pub fn path(&self) -> Option<Segments<'a>>
        ensures { option_map segments_left result ≡ self.now.path }
    {
        self.path
    }

    /// The prefixes of MP_REACH_NLRI; `None` exactly in a table, where the attribute isn't there, or where it isn't of unicast of
    /// IPv4 or IPv6.
    pub fn announced(&self) -> Option<Prefixes<'a>>
        ensures { option_map prefixes_left result ≡ self.now.announced }
    {
        self.announced
    }

    /// The prefixes of MP_UNREACH_NLRI; `None` as for `announced`.
    pub fn withdrawn(&self) -> Option<Prefixes<'a>>
        ensures { option_map prefixes_left result ≡ self.now.withdrawn }
    {
        self.withdrawn
    }

    /// What the first Only-to-Customer says (RFC 9234, section 5): `Absent` exactly where there is none, `Malformed` exactly where
    /// its length isn't 4.
    pub fn otc(&self) -> Otc
        ensures { result ≡ self.now.otc }
    {
        self.otc
    }

    /// The path as it is judged: that of AS_PATH, with AS4_PATH merged in where it is used. `None` exactly where there is no
    /// AS_PATH.
    #[inline(always)]
    pub fn trail(&self, alloc: Global) -> Result<Option<Trail>, NoMemory>
        ensures { IfOk result (λ trail. trail ≡ trail_in self.now) }
    {
        match self.path {
            Some(path) => Ok(Some(trail_along(alloc, path, self.used_path4())?)),
            None => Ok(None),
        }
    }

    // The AS4_PATH, unless a speaker of two bytes aggregated behind it.
    #[inline(always)]
    fn used_path4(&self) -> Option<Segments<'a>>
        ensures { option_map segments_left result ≡ used_in self.now }
    {
        match self.aggregator {
            Some(asn) if self.aggregator4 && asn != AS_TRANS => None,
            _ => self.path4,
        }
    }
}
