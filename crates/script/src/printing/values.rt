ghost use Rattle.std.specs.Prelude.{◌≡◌, OnOk, ◌++◌, ◌∷◌, []};
ghost use Rattle.script.specs.vocabulary.Kinds.{value_word};
ghost use Rattle.script.specs.vocabulary.Spaced.{spaced};

use crate::vocabulary::{Kind, push_value};
use std::alloc::AllocError;

/// Appends two numbers, each as a word. If an allocation fails, some may have been appended.
#[tactic(auto, using(crate::proofs::vocabulary::WordsOf::spaced_laws))]
pub(crate) fn push_two(
    line: &mut Vec<u8>,
    first: (Kind, u32),
    second: (Kind, u32),
) -> Result<(), AllocError>
    ensures { OnOk result (line.new.items ≡ line.old.items
        ++ spaced (value_word first.0 first.1 ∷ value_word second.0 second.1 ∷ [])) }
{
    push_value(line, first.0, first.1)?;
    push_value(line, second.0, second.1)
}

/// Appends three numbers, each as a word. If an allocation fails, some may have been appended.
#[tactic(auto, using(crate::proofs::vocabulary::WordsOf::spaced_laws))]
pub(crate) fn push_three(
    line: &mut Vec<u8>,
    first: (Kind, u32),
    second: (Kind, u32),
    third: (Kind, u32),
) -> Result<(), AllocError>
    ensures { OnOk result (line.new.items ≡ line.old.items
        ++ spaced (value_word first.0 first.1 ∷ value_word second.0 second.1 ∷ value_word third.0 third.1 ∷ [])) }
{
    push_two(line, first, second)?;
    push_value(line, third.0, third.1)
}
