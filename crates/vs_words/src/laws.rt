//! What holds of all words.

ghost use Rattle.std.specs.Prelude.{◌≡◌, ℕ, List};
ghost use Rattle.vs_words.specs.declared.command.Command.{Command};
ghost use Rattle.vs_words.specs.Words.{Word, AreBadAt, AskFor};

/// Words ask for one command at most, or are bad at one place, and never both.
pub fn words_mean_one_thing()
    ensures one_command { (words : List Word) (c d : Command)
        → AskFor words c → AskFor words d → c ≡ d }
    ensures one_place { (words : List Word) (m n : ℕ)
        → AreBadAt words m → AreBadAt words n → m ≡ n }
    ensures never_both { (words : List Word) (c : Command) (n : ℕ)
        → AskFor words c → ¬ (AreBadAt words n) }
{}
