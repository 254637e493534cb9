//! A law over the definitions that the calls of this crate name. The function has an empty body, and its clause is the
//! law.

ghost use Rattle.std.specs.Prelude.{◌↔◌, ℕ, List, IsTrue};
ghost use Rattle.strkw_companions.specs.Companions.{admits, IsOfCompanion};
ghost use Rattle.strkw_companions.specs.declared.companion.Companion.{Companion};

/// A companion admits exactly the texts that its grammar derives.
pub fn admitted_texts_are_those_of_the_grammar()
    ensures { (c : Companion) (text : List ℕ) → IsTrue (admits c text) ↔ IsOfCompanion c text }
{}
