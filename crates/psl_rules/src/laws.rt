//! What holds of the rules.
ghost use Rattle.std.specs.Prelude.{◌≡◌, true, List};
ghost use Rattle.psl_rules.specs.Parts.{Spelling};
ghost use Rattle.psl_rules.specs.Updates.{Step, Leads, leads};

/// The rule on cycles follows as many steps as there are: these reach just what steps lead to.
#[tactic(auto, using(crate::proofs::Steps::leads_sound, crate::proofs::Steps::leads_complete))]
pub fn rounds_are_enough()
    ensures sound { (all : List Step) (from to : Spelling) → leads all from to ≡ true → Leads all from to }
    ensures complete { (all : List Step) (from to : Spelling) → Leads all from to → leads all from to ≡ true }
{}
