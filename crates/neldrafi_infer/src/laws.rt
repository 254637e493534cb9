//! A law over the definitions that the calls of this crate name. The function does nothing, and its clause is the law.
ghost use Rattle.std.specs.Prelude.{List, All};
ghost use Rattle.neldrafi_infer.specs.Hypotheses.{Seen};
ghost use Rattle.neldrafi_infer.specs.Properties.{HoldsIn, hypotheses};
ghost use Rattle.neldrafi_infer.specs.Proposals.{HasProposed};
ghost use Rattle.neldrafi_infer.specs.declared.property.Group.TheVariants.{Types};

/// Where no type is held, each value is null or of a type that is proposed.
pub fn values_have_proposed_types()
    ensures { (ss : List Seen) → All (λ h. HoldsIn Types ss h → ⊥) hypotheses
        → All (HasProposed ss) ss }
{}
