//! The routes of one peer without a path identifier, one after another.
ghost use Rattle.std.specs.Iterator.{YieldsFirstBy, item_count};

use crate::ipv4_plain::Ipv4Plain;
use crate::ipv6_plain::Ipv6Plain;
use path_model::Nlri;
use std::marker::Model;

// The prefixes that one peer has a route to without a path identifier, in order, each with its value.
#[derive(Drop)]
pub(crate) struct PlainIter<'a, V> {
    pub(crate) v4: sorted_map::Iter<'a, Ipv4Plain, V>,
    pub(crate) v6: sorted_map::Iter<'a, Ipv6Plain, V>,
}

impl<'a, V> Model for PlainIter<'a, V> {
    ghost use Rattle.std.specs.Prelude.{List, ◌++◌};
    ghost use Rattle.path_model.specs.declared.nlri.Nlri.{Nlri};

    ghost Value = { List (Nlri × V) };

    ghost view = { λ i. i.v4 ++ i.v6 };
}

impl<'a, V> Iterator for PlainIter<'a, V> {
    type Item = (Nlri, &'a V);

    ghost next_gives = { YieldsFirstBy (λ e. (e.0, e.1.now)) (λ left. left) };

    ghost remaining = { item_count (λ left. left) };

    #[inline(always)]
    fn next(&mut self) -> Option<(Nlri, &'a V)> {
        if let Some((subnet, value)) = self.v4.next() {
            return Some((subnet.nlri(), value));
        }
        match self.v6.next() {
            None => None,
            Some((prefix, value)) => Some((prefix.nlri(), value)),
        }
    }
}
