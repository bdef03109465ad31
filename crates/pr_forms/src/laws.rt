//! The laws of grammars. Each stands as the contract of a function that does nothing, at any tokens
//! `T`, rule names `N` and values `V`; callers' proofs cite the lemmas of `proofs/` that prove
//! them.
ghost use Rattle.std.specs.Prelude.{◌≡◌, Some, ℕ, List, [], ◌++◌, ◌<◌, ◌≤◌, ◌-◌, length, take, drop, map, false};
ghost use Rattle.pr_forms.specs.Form.{Form, rule, Reads, Begins, IsFirstBad};
ghost use Rattle.pr_forms.specs.Table.{Table, more_of, Decides, IsDecided};
ghost use Rattle.pr_forms.specs.Run.{Runs, ReaderOutcome, good, bad, left_of};
ghost use Rattle.pr_forms.specs.Reading.{Ends, reading, bad_place};
ghost use Rattle.pr_forms.specs.Language.{Language, seen};
ghost use Rattle.pr_forms.specs.Within.{Embedding, within, Holds, HoldsTable, IsWithin};

/// Two readings of a text have the same value, where one token ahead decides the grammar.
pub fn two_readings_agree<T, N, V>()
    ensures { (G : N → Form T N V) (S : Table T N) (n : N) (ts : List T) (v w : V) → IsDecided G S →
        Reads G (rule n) ts v [] → Reads G (rule n) ts w [] → v ≡ w }
{}

/// A run that succeeds is a reading.
pub fn good_run_reads<T, N, V>()
    ensures { (G : N → Form T N V) (S : Table T N) (f : Form T N V) (ts rest : List T) (v : V) →
        Runs G S f ts (good v rest) → Reads G f ts v rest }
{}

/// A run that fails leaves a beginning before the place where it stopped.
pub fn bad_run_begins<T, N, V>()
    ensures { (G : N → Form T N V) (S : Table T N) (f : Form T N V) (ts rest : List T) →
        Runs G S f ts (bad rest) → Begins G f ts rest }
{}

/// Where a text has a reading, each run gives that one, and leaves nothing.
pub fn run_gives_the_reading<T, N, V>()
    ensures { (G : N → Form T N V) (S : Table T N) (n : N) (ts : List T) (o : ReaderOutcome T V) (v : V) → IsDecided G S →
        Runs G S (rule n) ts o → Reads G (rule n) ts v [] → o ≡ good v [] }
{}

/// No beginning goes past the place where a run stopped.
pub fn no_beginning_passes_a_run<T, N, V>()
    ensures { (G : N → Form T N V) (S : Table T N) (n : N) (ts rest : List T) (o : ReaderOutcome T V) → IsDecided G S →
        Runs G S (rule n) ts o → Begins G (rule n) ts rest → length (left_of o) ≤ length rest }
{}

/// The place where a run stopped is the first bad one, whether it succeeded or failed.
pub fn run_stops_at_the_first_bad_place<T, N, V>()
    ensures { (G : N → Form T N V) (S : Table T N) (n : N) (ts : List T) (o : ReaderOutcome T V) → IsDecided G S →
        Runs G S (rule n) ts o → IsFirstBad G (rule n) ts (length ts - length (left_of o)) }
{}

/// A text has at most one first bad place.
pub fn first_bad_place_is_one<T, N, V>()
    ensures { (G : N → Form T N V) (f : Form T N V) (ts : List T) (j k : ℕ) →
        IsFirstBad G f ts j → IsFirstBad G f ts k → j ≡ k }
{}

/// A beginning cut short is a beginning.
pub fn shorter_front_begins<T, N, V>()
    ensures { (G : N → Form T N V) (f : Form T N V) (ts : List T) (j k : ℕ) → j ≤ k →
        Begins G f ts (drop k ts) → Begins G f ts (drop j ts) }
{}

/// What follows a reading does not matter to it.
pub fn reading_before_another_rest<T, N, V>()
    ensures { (G : N → Form T N V) (f : Form T N V) (front r s : List T) (v : V) →
        Reads G f (front ++ r) v r → Reads G f (front ++ s) v s }
{}

/// What follows a beginning does not matter to it.
pub fn beginning_before_another_rest<T, N, V>()
    ensures { (G : N → Form T N V) (f : Form T N V) (front r s : List T) →
        Begins G f (front ++ r) r → Begins G f (front ++ s) s }
{}

/// A bad place within a front of the tokens is the first bad one of all: so a reader may look at a
/// front alone.
pub fn bad_place_of_a_front<T, N, V>()
    ensures { (G : N → Form T N V) (f : Form T N V) (ts : List T) (m k : ℕ) → k < m → m ≤ length ts →
        IsFirstBad G f (take m ts) k → IsFirstBad G f ts k }
{}

/// Every text has a run, where the grammar ends: so a grammar answers every text.
pub fn every_text_has_a_run<T, N, V>()
    ensures { (G : N → Form T N V) (S : Table T N) (rank : N → ℕ) (limit : ℕ) (n : N) (ts : List T) → IsDecided G S → Ends G S rank limit →
        (o : ReaderOutcome T V) × Runs G S (rule n) ts o }
{}

/// The reading of a text is a function of it, where the grammar ends: what the function gives is
/// the reading, and each reading is given.
pub fn reading_is_a_function<T, N, V>()
    ensures reads { (G : N → Form T N V) (S : Table T N) (rank : N → ℕ) (limit : ℕ) (n : N) (ts : List T) (v : V) →
        IsDecided G S → Ends G S rank limit → reading G S limit (rule n) ts ≡ Some v → Reads G (rule n) ts v [] }
    ensures given { (G : N → Form T N V) (S : Table T N) (rank : N → ℕ) (limit : ℕ) (n : N) (ts : List T) (v : V) →
        IsDecided G S → Ends G S rank limit → Reads G (rule n) ts v [] → reading G S limit (rule n) ts ≡ Some v }
{}

/// So is the first bad place.
pub fn bad_place_is_a_function<T, N, V>()
    ensures { (G : N → Form T N V) (S : Table T N) (rank : N → ℕ) (limit : ℕ) (n : N) (ts : List T) →
        IsDecided G S → Ends G S rank limit → IsFirstBad G (rule n) ts (bad_place G S limit (rule n) ts) }
{}

/// The front of a text is read in one way at most, where nothing may go on after the form.
pub fn front_is_read_in_one_way<T, N, V>()
    ensures one { (G : N → Form T N V) (S : Table T N) (f : Form T N V) (ts r s : List T) (v w : V) → IsDecided G S → Decides S f →
        ((t : T) → more_of S f t ≡ false) → Runs G S f ts (good v r) → Reads G f ts w s → (w ≡ v) × (s ≡ r) }
    ensures none { (G : N → Form T N V) (S : Table T N) (f : Form T N V) (ts r s : List T) (w : V) → IsDecided G S → Decides S f →
        ((t : T) → more_of S f t ≡ false) → Runs G S f ts (bad r) → Reads G f ts w s → ⊥ }
{}

/// A language within another one reads there what it reads alone.
pub fn reading_within_another<A, T, N, V, U, M, W>()
    ensures { (p : Embedding T N V U M W) (L : Language A T N V) (K : Language A U M W) (f : Form T N V) (ts rest : List A) (v : V) → IsWithin p L K →
        Reads L.production f (seen L ts) v (seen L rest) → Reads K.production (within p f) (seen K ts) (p.value_of v) (seen K rest) }
{}

/// What begins a text of the language begins one within the other.
pub fn beginning_within_another<A, T, N, V, U, M, W>()
    ensures { (p : Embedding T N V U M W) (L : Language A T N V) (K : Language A U M W) (f : Form T N V) (ts rest : List A) → IsWithin p L K →
        Begins L.production f (seen L ts) (seen L rest) → Begins K.production (within p f) (seen K ts) (seen K rest) }
{}

/// The first bad place is the same one, where both grammars are decided and the one within ends.
pub fn bad_place_within_another<T, N, V, U, M, W>()
    ensures { (p : Embedding T N V U M W) (G : N → Form T N V) (S : Table T N) (H : M → Form U M W) (Z : Table U M) (rank : N → ℕ) (limit : ℕ) (us : List U) (n : N) (k : ℕ) →
        Holds p G H → HoldsTable p S Z → IsDecided G S → IsDecided H Z → Ends G S rank limit →
        IsFirstBad G (rule n) (map p.token_of us) k → IsFirstBad H (rule (p.rule_of n)) us k }
{}
