ghost use Rattle.std.specs.Prelude.{◌≡◌, ◌≢◌, ◌∷◌, [], ℕ, List, Some, map, option_map, IfSome, IfNone};
ghost use Rattle.std.specs.String.{string_bytes};

use std::alloc::AllocGlobal;
use std::env;
use std::rt::Env;

/// Returns the arguments after the program's name, or `None` if they can't be read: one isn't UTF-8, or there is no
/// memory for them.
///
/// No contract can describe the arguments that the system passes.
pub fn read_words<R: Env + AllocGlobal>(rt: &R) -> Option<Vec<String>> {
    let mut words = Vec::new(rt.alloc());
    for word in env::args(rt).ok()?.skip(1) {
        words.push(word).ok()?;
    }
    Some(words)
}

/// Returns the argument, if there is exactly one.
pub fn one_word(words: Option<&[String]>) -> Option<&str>
    ensures one { IfSome result (λ word. option_map (λ texts. map string_bytes texts.now) words.entry
        ≡ Some (word.now ∷ [])) }
    ensures other { IfNone result ((word : List ℕ)
        → option_map (λ texts. map string_bytes texts.now) words.entry ≢ Some (word ∷ [])) }
{
    match words {
        Some([word]) => Some(word.as_str()),
        _ => None,
    }
}
