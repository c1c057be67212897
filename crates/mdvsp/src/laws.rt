//! What holds of every input, whichever way it is answered.

ghost use Rattle.std.specs.Prelude.{◌≡◌, ◌≢◌, ℕ, ◌+◌, ◌*◌, ◌≤◌, List, [], ◌∷◌, ◌++◌, take, Some};
ghost use Rattle.vs_reader.specs.Texts.{HasRows, EndsInLine};
ghost use Rattle.vs_instance.specs.Problem.{Problem};
ghost use Rattle.vs_instance.specs.Restriction.{permitted_sets};
ghost use Rattle.vs_cert.specs.Answers.{choices};
ghost use Rattle.vs_words.specs.declared.command.Command.{Command};
ghost use Rattle.vs_words.specs.declared.command.Effort.{Effort};
ghost use Rattle.vs_words.specs.declared.command.Search.{Search};
ghost use Rattle.vs_reply.specs.declared.status.Status.{Status};
ghost use Rattle.vs_reply.specs.declared.status.Status.TheVariants as status;
ghost use Rattle.mdvsp.specs.Laws.{IsDetermined, IsDoneWhereShown, MayBothBe, NeverDisagree, NeverFalls, NeverPasses, Shown, Shows, WritesAnswer};
ghost use Rattle.vs_reply.specs.Owed.{CheckOwes, yes_row};
ghost use Rattle.mdvsp.specs.Owed.{Owes, OwesDocument, OwesResumed, OwesTrace};
ghost use Rattle.vs_replay.specs.Owed.{ReplayOwes};
ghost use Rattle.vs_words.specs.Words.{IsUnlimited, MayBeTaken, Reads};
ghost use Rattle.vs_rows.specs.declared.document.Document.{Document};
ghost use Rattle.mdvsp.specs.SolveAnswer.{SolveAnswer, StoppedAnswer};
ghost use Rattle.vs_document.specs.ReadingBack.{ReadsAs};
ghost use Rattle.vs_reader.specs.Rows.{Row, lines};

/// What `solve` must output for an instance is true. Behind the instance's records, where a line end ends the last of
/// them, `check` has to answer `yes`. Both together read as the instance and the document that `solve` must output.
pub fn solved_documents_hold()
    ensures { (effort : Effort) (bytes read : List ℕ) (answer : Status) (rows : List Row)
        (owed : OwesDocument effort bytes answer rows)
        → HasRows read (take owed.text.before owed.text.instance.rows) → EndsInLine read
        → CheckOwes (read ++ lines rows) status.Done (yes_row owed.document ∷ [])
        × ReadsAs (read ++ lines rows) owed.problem owed.names owed.text.before owed.document }
{}

/// So is what `resume` has to write for an instance and a document.
pub fn resumed_documents_hold()
    ensures { (effort : Effort) (bytes read : List ℕ) (answer : Status) (rows : List Row)
        (owed : OwesResumed effort bytes answer rows)
        → HasRows read (take owed.text.before owed.text.instance.rows) → EndsInLine read
        → CheckOwes (read ++ lines rows) status.Done (yes_row owed.document ∷ [])
        × ReadsAs (read ++ lines rows) owed.problem owed.names owed.text.before owed.document }
{}

/// The bound of what `resume` writes is no lower than that of the document that it read, and its cost no higher.
pub fn bounds_never_fall()
    ensures { (effort : Effort) (bytes : List ℕ) (answer : Status) (rows : List Row)
        (owed : OwesResumed effort bytes answer rows)
        → NeverFalls owed.before owed.document }
{}

/// Take an instance's records, with a line end behind the last of them, and behind them what `trace` must output for
/// it. For that `replay` must output a document of the state that the search came to, and nothing else. The search may
/// answer that document.
pub fn written_traces_replay()
    ensures { (effort : Effort) (bytes read : List ℕ) (answer replayed : Status) (rows others : List Row)
        (owed : OwesTrace effort bytes answer rows) → MayBeTaken effort
        → HasRows read (take owed.text.before owed.text.instance.rows) → EndsInLine read
        → ReplayOwes (read ++ lines rows) replayed others
        → (replayed ≡ status.Done) × WritesAnswer (IsUnlimited effort) owed.problem owed.names owed.budget
        effort.workers owed.opening owed.steps others }
{}

/// A command other than `solve`, `trial`, `resume`, `trace` and `peak` must output one thing for the bytes that it
/// read. That is one status, and one list of rows. So no input has two verdicts.
pub fn one_answer()
    ensures { (command : Command) (bytes : List ℕ) (a b : Status) (r s : List Row)
        → IsDetermined command → Owes command bytes a r → Owes command bytes b s
        → (a ≡ b) × (r ≡ s) }
{}

/// What a command must output has one status, but that a search may leave open what another one settles. So nothing is
/// refused and also answered, and no plan is shown to be optimal where there is shown to be none.
pub fn one_status()
    ensures { (command : Command) (bytes : List ℕ) (a b : Status) (r s : List Row)
        → Owes command bytes a r → Owes command bytes b s → MayBothBe a b }
{}

/// Two searches of one input, by whichever of `solve`, `resume` and `trace`, show what they show of one instance.
pub fn one_input_has_one_instance()
    ensures { (search other : Search) (bytes : List ℕ) (a b : Status) (r s : List Row) (p q : Problem) (x y : Shown)
        → Reads (Command.Search search) → Reads (Command.Search other)
        → Shows search bytes a r p x → Shows other bytes b s q y → p ≡ q }
{}

/// Of two searches of one instance, by whichever commands and with whatever efforts, neither has a bound above what the
/// other's plan costs.
pub fn bounds_never_pass_costs()
    ensures { (search other : Search) (bytes others : List ℕ) (a b : Status) (r s : List Row) (p : Problem)
        (x y : Shown) → Shows search bytes a r p x → Shows other others b s p y → NeverPasses x y }
{}

/// Of an instance no search, by whichever command and effort, answers that there is no plan where another one answers
/// that its plan is optimal. Two plans that are optimal cost the same.
pub fn searches_agree()
    ensures { (search other : Search) (bytes others : List ℕ) (a b : Status) (r s : List Row) (p : Problem)
        (x y : Shown) → Shows search bytes a r p x → Shows other others b s p y → NeverDisagree a b x y }
{}

/// Without a node a run is done exactly where there is a greedy plan that costs at most what the table of zeros is
/// worth. Else it is open.
pub fn done_where_shown()
    ensures { (effort : Effort) (bytes : List ℕ) (answer : Status) (rows : List Row)
        (owed : OwesDocument effort bytes answer rows)
        → effort.nodes ≡ Some 0 → IsDoneWhereShown effort bytes answer rows owed }
{}

/// What a search may answer that is over, one that ended early may answer too.
pub fn solve_answers_are_stopped_answers()
    ensures { (p : Problem) (budget workers : ℕ) (d : Document) → SolveAnswer p budget workers d
        → StoppedAnswer p budget workers d }
{}

/// Each trip's layer can be chosen in so many ways, and all layers together in the product of these numbers. A run with
/// a budget of twice that product less one, or more, and without a limit of time or of the gap isn't left open.
pub fn enough_nodes_leave_nothing_open()
    ensures { (effort : Effort) (bytes : List ℕ) (answer : Status) (rows : List Row)
        (owed : OwesDocument effort bytes answer rows) → IsUnlimited effort
        → 2 * choices (permitted_sets owed.problem) ≤ owed.budget + 1 → answer ≢ status.StillOpen }
{}

/// Nor is a search that is carried on with so many nodes, from whatever document that holds.
pub fn enough_nodes_end_what_is_resumed()
    ensures { (effort : Effort) (bytes : List ℕ) (answer : Status) (rows : List Row)
        (owed : OwesResumed effort bytes answer rows) → IsUnlimited effort
        → 2 * choices (permitted_sets owed.problem) ≤ owed.budget + 1 → answer ≢ status.StillOpen }
{}
