//! Runs of groups with colons between them.
ghost use Rattle.std.specs.Prelude.{◌≤◌, IfSome, IfNone};
ghost use Rattle.av_text.specs.Marks.{Lacks};
ghost use Rattle.any_prefix.specs.Reading.{IsNoFilledRun, IsReadRun};

use crate::group::read_group;
use av_text::{cut, read_addr};
use path_model::Addr;

// Groups of 16 bits, and the number that they make.
#[derive(Clone, Copy, Debug)]
pub(crate) struct Run {
    pub(crate) count: u32,
    pub(crate) number: u128,
}

// Reads a run of at most so many groups, at most 8, which isn't empty.
pub(crate) fn read_run(text: &[u8], most: u32, last: bool) -> Option<Run>
    requires { most ≤ 8 }
    ensures some { IfSome result (IsReadRun last text.now most) }
    ensures none { IfNone result (IsNoFilledRun last text.now most) }
{
    match cut(text, b':') {
        None => read_end(text, most, last),
        Some((first, rest)) => {
            if most == 0 {
                return None;
            }
            let high = read_group(first)?;
            let low = read_run(rest, most - 1, last)?;
            Some(Run {
                count: low.count + 1,
                number: u128::from(high) * 65_536u128.pow(low.count) + low.number,
            })
        }
    }
}

// Reads the last piece of a run: a group, or an IPv4 address where it may stand there.
fn read_end(text: &[u8], most: u32, last: bool) -> Option<Run>
    requires lacks { Lacks 58 text.now }
    ensures some { IfSome result (IsReadRun last text.now most) }
    ensures none { IfNone result (IsNoFilledRun last text.now most) }
{
    if let Some(group) = read_group(text) {
        if most < 1 {
            return None;
        }
        let number = u128::from(group);
        return Some(Run { count: 1, number });
    }
    if !last {
        return None;
    }
    if most < 2 {
        return None;
    }
    match read_addr(text)? {
        Addr::V4(bits) => {
            let number = u128::from(bits);
            Some(Run { count: 2, number })
        }
        Addr::V6(_) => None,
    }
}
