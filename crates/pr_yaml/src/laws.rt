//! The laws of trees, as the contracts of functions that do nothing.
ghost use Rattle.std.specs.Prelude.{◌≡◌, ◌≤◌, ◌↔◌, ℕ, Bool, true, false, List, []};
ghost use Rattle.std.specs.Str.{is_utf8};
ghost use Rattle.pr_words.specs.pr_forms.Form.{rule, Begins};
ghost use Rattle.pr_words.specs.pr_forms.Table.{IsDecided};
ghost use Rattle.pr_words.specs.pr_forms.Reading.{Ends};
ghost use Rattle.pr_yaml.specs.Bytes.{without_mark};
ghost use Rattle.pr_yaml.specs.private.YamlScanWorked.{has_return, with_returns};
ghost use Rattle.pr_yaml.specs.declared.yaml_scan.fault.YamlKind.{YamlKind};
ghost use Rattle.pr_yaml.specs.Tree.{Tree};
ghost use Rattle.pr_yaml.specs.Grammar.{Letter, production, Whole};
ghost use Rattle.pr_yaml.specs.GrammarTable.{table, rank, steps};
ghost use Rattle.pr_yaml.specs.Trees.{goes_on};
ghost use Rattle.pr_yaml.specs.Read.{read_of, gives_tree, gives_fault};
ghost use Rattle.pr_yaml.specs.private.Derived.{IsTree, HasFault};
ghost use Rattle.pr_yaml.specs.private.Distinct.{has_distinct_keys};
ghost use Rattle.pr_yaml.specs.private.Depth.{height};

/// One token ahead decides the grammar of trees, and it ends: so tokens have one tree at most, and
/// are read without going back.
pub fn one_token_decides()
    ensures decided { (distinct : Bool) → IsDecided (production distinct) (table distinct) }
    ensures ends { (distinct : Bool) → Ends (production distinct) (table distinct) rank steps }
{}

/// What a text gives is its tree, or the line and the kind of its first fault: the function and the
/// productions say the same.
pub fn reading_is_tree_or_fault()
    ensures tree { (text : List ℕ) (tree : Tree) → (read_of text ≡ gives_tree tree) ↔ IsTree text tree }
    ensures fault { (text : List ℕ) (line : ℕ) (kind : YamlKind) → (read_of text ≡ gives_fault line kind) ↔ HasFault text line kind }
{}

/// A text has one tree at most, one fault at most, and never both.
pub fn text_has_one_reading()
    ensures tree { (text : List ℕ) (t u : Tree) → IsTree text t → IsTree text u → t ≡ u }
    ensures line { (text : List ℕ) (line other : ℕ) (kind sort : YamlKind) → HasFault text line kind → HasFault text other sort → line ≡ other }
    ensures kind { (text : List ℕ) (line other : ℕ) (kind sort : YamlKind) → HasFault text line kind → HasFault text other sort → kind ≡ sort }
    ensures not_both { (text : List ℕ) (tree : Tree) (line : ℕ) (kind : YamlKind) → IsTree text tree → HasFault text line kind → ⊥ }
{}

/// Tokens can go on, as the kinds of faults ask, where they are a beginning of a text by the
/// productions.
pub fn what_goes_on_is_a_beginning()
    ensures { (distinct : Bool) (room : ℕ) (letters : List Letter) → (goes_on distinct room letters ≡ true) ↔ Begins (production distinct) (rule (Whole room)) letters [] }
{}

/// In no map of the tree of a text a key stands twice.
pub fn keys_of_a_map_are_distinct()
    ensures { (text : List ℕ) (tree : Tree) → IsTree text tree → has_distinct_keys tree ≡ true }
{}

/// In no tree of a text more than 64 maps and lists stand in one another.
pub fn trees_are_not_deep()
    ensures { (text : List ℕ) (tree : Tree) → IsTree text tree → height tree ≤ 64 }
{}

/// With a carriage return before each line feed a text is read as without them: the same tree, or a
/// fault of the same kind on the same line. It is said of texts that are UTF-8, after a byte order
/// mark or without one.
pub fn returns_change_no_reading()
    ensures { (text : List ℕ) → has_return text ≡ false → is_utf8 (without_mark text) ≡ true → read_of (with_returns text) ≡ read_of text }
{}
