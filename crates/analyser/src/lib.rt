//! The analysis: a store of all that attests, the roles and the routes, and what each event makes of it.
//!
//! The layer above uses one contract, that of [`Analyser::apply`], or [`Analyser::step`], which answers the next one: after an event the
//! state is what `Happens` of `specs/Events.antt` says, and by the law [`events_have_one_outcome`] there is exactly one such state. What
//! the state is, and what [`Analyser::mark_all`] makes of it, is defined in `rib_store` (`State`, `Changes`). `Costs` of
//! `specs/Touched.antt` says how many judgements an event may cost, by the law [`events_have_one_cost`] exactly one number.
//! [`Analyser::clear`] takes all routes away in one event, the end of the session of each peer that has one (`specs/Departures.antt`), and
//! leaves all else as it was. [`Progress`] holds it beside what else a script has made. Begin reading in `specs/Events.antt`.
#![tactic(auto)]

mod analysis;
mod departures;
mod event;
mod laws;
mod progress;

pub use analysis::Analyser;
pub use event::Event;
pub use laws::{cleared_routes_are_listed_as_gone, events_have_one_cost, events_have_one_outcome};
pub use progress::Progress;
