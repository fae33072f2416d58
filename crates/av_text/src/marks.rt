//! Texts cut at a mark, and texts that are put whole or not at all.
ghost use Rattle.std.specs.Prelude.{◌≡◌, ◌∷◌, ◌++◌, ◌≤◌, length, take, IfSome, IfNone, OnOk, OnErr};
ghost use Rattle.av_text.specs.Marks.{Lacks};

use av_base::NoMemory;

/// What stands before the first mark, and what stands behind it; `None` where there is no mark.
pub fn cut(text: &[u8], mark: u8) -> Option<(&[u8], &[u8])>
    ensures whole { IfSome result (λ parts. text.now ≡ parts.0.now ++ mark ∷ parts.1.now) }
    ensures first { IfSome result (λ parts. Lacks mark parts.0.now) }
    ensures none { IfNone result (Lacks mark text.now) }
{
    let at = text.iter().position(|byte| *byte == mark)?;
    let (front, back) = text.split_at(at);
    let (_, rest) = back.split_at(1);
    Some((front, rest))
}

/// What stands before the last mark, and what stands behind it.
pub(crate) fn cut_last(text: &[u8], mark: u8) -> Option<(&[u8], &[u8])>
    ensures whole { IfSome result (λ parts. text.now ≡ parts.0.now ++ mark ∷ parts.1.now) }
    ensures last { IfSome result (λ parts. Lacks mark parts.1.now) }
    ensures none { IfNone result (Lacks mark text.now) }
{
    let mut at = text.len();
    while at > 0 {
        at -= 1;
        if text[at] == mark {
            let (front, back) = text.split_at(at);
            let (_, rest) = back.split_at(1);
            return Some((front, rest));
        }
    }
    None
}

/// Takes back what was appended behind the first `start` bytes where appending it failed.
pub(crate) fn or_undo(
    out: &mut Vec<u8>,
    start: usize,
    done: Result<(), NoMemory>,
) -> Result<(), NoMemory>
    requires { start ≤ length out.now.items }
    ensures same { result ≡ done }
    ensures ok { OnOk result (out.new.items ≡ out.old.items) }
    ensures err { OnErr result (out.new.items ≡ take start out.old.items) }
{
    if done.is_err() {
        out.truncate(start);
    }
    done
}
