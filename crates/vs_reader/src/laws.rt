//! What holds of instance texts, and how long a text may be.

ghost use Rattle.std.specs.Prelude.{◌≡◌};
ghost use Rattle.vs_reader.specs.Laws.{InstanceTextsAreNotRefused, TextsStandForOneInstance};
ghost use Rattle.vs_reader.specs.declared.limits.TheConstants.{MAX_BYTES};

/// A text that stands for an instance isn't refused.
pub fn instance_texts_are_not_refused()
    ensures { InstanceTextsAreNotRefused }
{}

/// A text stands for one instance, with one list of names of each kind, and for one list of rows behind it.
pub fn texts_stand_for_one_instance()
    ensures { TextsStandForOneInstance }
{}

/// A text has 536,870,912 bytes at most.
pub fn limits_are_fixed()
    ensures { MAX_BYTES ≡ 536870912 }
{}
