//! The words that the program is called with.
ghost use Rattle.std.specs.Prelude.{◌≡◌, ℕ, [], ◌∷◌, map, IfSome, IfNone};
ghost use Rattle.std.specs.String.{string_bytes};
ghost use Rattle.aspa_top.specs.Program.{IsDemo};
ghost use Rattle.aspa_top.specs.Words.{HasForm};

use av_text::read_u32;

/// What the words ask for.
#[derive(Clone, Copy)]
pub(crate) enum Form {
    /// `run`: a script.
    Run,
    /// `demo N`: the workload of that number.
    Demo(u32),
    /// Words of no form.
    Other,
}

/// What the words ask for. They stand without the program's name.
pub(crate) fn form_of(words: &Vec<String>) -> Form
    ensures { HasForm (map string_bytes words.now.items) result }
{
    match words.as_slice() {
        [word] => {
            if word.as_str() == "run" {
                Form::Run
            } else {
                Form::Other
            }
        }
        [word, number] => match seed_of(word, number) {
            Some(seed) => Form::Demo(seed),
            None => Form::Other,
        },
        _ => Form::Other,
    }
}

// The number of the workload that two words ask for.
fn seed_of(word: &String, number: &String) -> Option<u32>
    ensures some { IfSome result (IsDemo (string_bytes word.now ∷ string_bytes number.now ∷ [])) }
    ensures none { IfNone result ((seed : ℕ)
        → ¬ IsDemo (string_bytes word.now ∷ string_bytes number.now ∷ []) seed) }
{
    if word.as_str() == "demo" {
        read_u32(number.as_bytes())
    } else {
        None
    }
}
