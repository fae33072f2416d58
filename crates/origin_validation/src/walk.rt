//! A walk along the states that are held, beside routes in their order.
ghost use Rattle.std.specs.Prelude.{◌≡◌, IfSome};
ghost use Rattle.origin_model.specs.Current.{IsCurrent};
ghost use Rattle.origin_model.specs.OriginState.{HasState};
ghost use Rattle.origin_validation.specs.Held.{AreAllRight, IsRight};

use crate::origins::Origins;
use origin_model::OriginState;
use path_model::Prefix;
use std::cmp::Ordering;
use std::collections::btree_map;
use std::marker::Model;

// So many states are passed at most before a pair is looked up.
const STEPS: u32 = 8;

/// States that are held, found one after another. A pair that follows soon behind the one before it in the order, by prefix and then by
/// origin, is found in a few steps; each other one takes a look-up. A contract sees what says which payloads are current.
#[derive(Drop)]
pub struct Walk<'a> {
    origins: &'a Origins,
    // the first state that isn't passed yet, if there is one
    beside: Option<(&'a (Prefix, u32), &'a OriginState)>,
    // those behind it
    behind: btree_map::Range<'a, (Prefix, u32), OriginState>,
}

impl<'a> Model for Walk<'a> {
    ghost use Rattle.origin_model.specs.Current.{Parts};
    ghost use Rattle.origin_validation.specs.Held.{AreAllRight, IsRightBeside};

    ghost Value = { Parts };

    ghost view = { λ w. w.origins.now };

    ghost invariant = { λ w. IsRightBeside w.origins.now w.beside
        × AreAllRight w.origins.now w.behind };
}

impl<'a> Walk<'a> {
    // A walk that begins at the first of these.
    pub(crate) fn new(
        origins: &'a Origins,
        mut behind: btree_map::Range<'a, (Prefix, u32), OriginState>,
    ) -> Walk<'a>
        requires { AreAllRight origins.now behind }
        ensures { result ≡ origins.now }
    {
        let beside = behind.next();
        Walk {
            origins,
            beside,
            behind,
        }
    }

    /// The state of a route by its prefix and its origin, if it is held. It takes no memory, and a few steps or a look-up.
    pub fn held(&mut self, prefix: &Prefix, origin: Option<u32>) -> Option<OriginState>
        ensures state { IfSome result (HasState (IsCurrent self.old) prefix.now origin) }
        ensures same { self.new ≡ self.old }
    {
        let pair = (*prefix, origin.unwrap_or(0));
        if let Some(state) = self.step_to(&pair) {
            return Some(state);
        }
        *self = self.origins.walk_from(pair);
        self.step_to(&pair)
    }

    // Goes on to a pair, or up to what is behind it, in a few steps; its state where it is reached.
    fn step_to(&mut self, pair: &(Prefix, u32)) -> Option<OriginState>
        ensures state { IfSome result (IsRight self.old pair.now) }
        ensures same { self.new ≡ self.old }
    {
        for _ in 0..STEPS {
            let (beside, state) = self.beside?;
            match beside.cmp(pair) {
                Ordering::Less => self.beside = self.behind.next(),
                Ordering::Equal => return Some(*state),
                Ordering::Greater => return None,
            }
        }
        None
    }
}
