//! Laws of the definitions. Each is a fact that a caller gains by the call; the calls do nothing.

ghost use Rattle.std.specs.Prelude.{◌≡◌, ℕ, List};
ghost use Rattle.strkw_cli.specs.Answer.{IsAnswer, IsOutput};

pub use strkw_object::laws::{
    compiled_errors_are_those_of_the_object, compiled_interval_is_that_of_the_object,
    compiled_notes_are_those_of_the_object, compiled_object_has_no_refusal, entries_are_determined,
    entries_exist, errors_are_determined, errors_are_there, first_refusal_exists,
    first_refusal_is_determined, folded_objects_may_be_replaced, folded_objects_refuse_texts,
    folded_texts_have_errors, lists_of_compile_are_in_use, no_text_has_no_errors,
    no_text_has_no_notes, notes_are_determined, notes_exist, notes_have_texts,
    other_objects_accept_some_text, refusals_have_texts,
};

/// A line has at most one answer.
pub fn answer_is_determined()
    ensures { (line a b : List ℕ) → IsAnswer line a → IsAnswer line b → a ≡ b }
{
    first_refusal_is_determined();
    errors_are_determined();
    notes_are_determined();
}

/// It cannot be that a line has no answer; so it has exactly one.
pub fn answer_is_there()
    ensures { (line : List ℕ) → ((answer : List ℕ) → IsAnswer line answer → ⊥) → ⊥ }
{
    errors_are_there();
}

/// An input has at most one output.
pub fn output_is_determined()
    ensures { (input a b : List ℕ) → IsOutput input a → IsOutput input b → a ≡ b }
{
    answer_is_determined();
}

/// It cannot be that an input has no output; so it has exactly one.
pub fn output_is_there()
    ensures { (input : List ℕ) → ((output : List ℕ) → IsOutput input output → ⊥) → ⊥ }
{
    answer_is_there();
}
