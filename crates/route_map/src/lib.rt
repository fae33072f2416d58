//! A value for each route: a map by peer, then by prefix and then by path identifier, laid out so that ten million IPv4 routes of a dump
//! take some 100 MB.
//!
//! The layers above see the list of its entries in key order and use the words of std's maps: **[`RouteMap::insert`] makes
//! `insert_entry key_cmp` of that list and [`RouteMap::remove`] `remove_entry`, [`RouteMap::get`] looks up in it, and [`RouteMap::iter`]
//! gives it**; [`RouteMap::by_peer`] gives it peer by peer, and [`RouteMap::take_peer`] takes a peer's out. Begin reading at [`RouteMap`],
//! and then at `specs/Flat.antt`, which says how the routes of the peers make one list. The values are of any type that is `Copy`, or for
//! all but `insert` and [`PeerTable::push_values`] of any type.
//!
//! Where the values are numbers, [`KeysByNumber`] is the way back: it finds the keys that have a number, of the peers of one AS. The layer
//! above keeps it in step by [`KeysByNumber::follow`], and `specs/Keys.antt` says what it is that a key has a number.
//!
//! The module `by_peer` has the routes of each peer in a slot, which `hints` most often finds at once. The routes of one peer stand in four
//! maps of `sorted_map`. One of IPv4 and one of IPv6 have those without a path identifier (`plain_routes`). Another two have those with one
//! (`identified_routes`), and stand in a box, which is there only where there are some (`boxed_routes`). `nlri_iter` and `left` give all four
//! in one order. `peer_table` has the routes of a peer that was taken out.
#![tactic(auto)]

mod boxed_iter;
mod boxed_routes;
mod by_number;
mod by_peer;
mod hints;
mod identified_iter;
mod identified_routes;
mod ipv4_nlri;
mod ipv4_plain;
mod ipv4_subnet;
mod ipv6_plain;
mod iter;
mod keys_by_number;
mod left;
mod nlri_iter;
mod peer_iter;
mod peer_routes;
mod peer_table;
mod peers;
mod plain_iter;
mod plain_routes;
mod route_map;

pub use iter::Iter;
pub use keys_by_number::KeysByNumber;
pub use nlri_iter::NlriIter;
pub use peer_iter::PeerIter;
pub use peer_table::PeerTable;
pub use peers::Peers;
pub use route_map::RouteMap;
