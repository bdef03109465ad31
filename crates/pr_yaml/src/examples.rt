//! What the definitions say of small texts.
ghost use Rattle.std.specs.Prelude.{◌≡◌, ◌++◌, codes, true, false};
ghost use Rattle.pr_yaml.specs.declared.yaml_scan.fault.YamlKind.TheVariants.{Anchor, Flow, Extra, Indent, Colon, DuplicateKey, TooDeep};
ghost use Rattle.pr_yaml.specs.Tree.{list_node, map_node, no_trees, tree_then, no_entries, entry_then, absent_node, is_absent};
ghost use Rattle.pr_yaml.specs.Read.{gives_tree, gives_fault};
ghost use Rattle.pr_yaml.specs.private.Worked.{reading_of, plain, quoted, list_signs, list_ends, list_inside};

/// A list may stand under its key at the key's column, and the next key goes on with the map; a
/// value may be absent.
pub fn maps_and_lists_stand_at_their_columns()
    ensures list_under_key { reading_of (codes "a:\n- x\nb:") ≡ gives_tree (map_node 1 (entry_then (codes "a") 1 (list_node 2 (tree_then (plain 2 (codes "x")) no_trees)) (entry_then (codes "b") 3 (absent_node 3) no_entries))) }
    ensures less_deep { reading_of (codes "- a\nb: 1") ≡ gives_fault 2 Indent }
    ensures same_line { reading_of (codes "'x' y") ≡ gives_fault 1 Extra }
    ensures second_colon { reading_of (codes "a: b: c") ≡ gives_fault 1 Colon }
{}

/// Flows may have a last comma, and have the line of their first sign. What is open at the end has
/// the line of the text's last byte.
pub fn flows_close()
    ensures last_comma { reading_of (codes "[x, {k: },]") ≡ gives_tree (list_node 1 (tree_then (plain 1 (codes "x")) (tree_then (map_node 1 (entry_then (codes "k") 1 (absent_node 1) no_entries)) no_trees))) }
    ensures lines { reading_of (codes "[\n x,\n {\n  k: y\n }\n]") ≡ gives_tree (list_node 1 (tree_then (plain 2 (codes "x")) (tree_then (map_node 3 (entry_then (codes "k") 4 (plain 4 (codes "y")) no_entries)) no_trees))) }
    ensures open { reading_of (codes "[x") ≡ gives_fault 1 Flow }
    ensures open_below { reading_of (codes "[a\n\n") ≡ gives_fault 2 Flow }
{}

/// Maps and lists stand in one another up to 64, and no node begins inside so many. An anchor there
/// is told as one, since it is no token and begins no node.
pub fn trees_have_64_levels()
    ensures level_64 { reading_of (list_signs 64 ++ list_ends 64) ≡ gives_tree (list_inside 63) }
    ensures text_inside_64 { reading_of (list_signs 64 ++ codes "x") ≡ gives_fault 1 TooDeep }
    ensures anchor_inside_64 { reading_of (list_signs 64 ++ codes "&x") ≡ gives_fault 1 Anchor }
{}

/// A key stands once in its map, however it is written. An anchor is told as one where a node may
/// begin.
pub fn keys_stand_once()
    ensures twice { reading_of (codes "a: 1\n'a': 2") ≡ gives_fault 2 DuplicateKey }
    ensures no_key_there { reading_of (codes "{a: a: 1}") ≡ gives_fault 1 Flow }
    ensures anchor { reading_of (codes "a: &x") ≡ gives_fault 1 Anchor }
    ensures no_anchor { reading_of (codes "[] &x") ≡ gives_fault 1 Extra }
{}

/// A value that is not quoted says that there is none where it is empty, `~` or `null`, in small
/// letters.
pub fn absent_values_say_nothing()
    ensures tilde { is_absent (plain 1 (codes "~")) ≡ true }
    ensures null { is_absent (plain 1 (codes "null")) ≡ true }
    ensures empty { is_absent (plain 1 (codes "")) ≡ true }
    ensures quoted_empty { is_absent (quoted 1 (codes "")) ≡ false }
    ensures capital { is_absent (plain 1 (codes "Null")) ≡ false }
    ensures capitals { is_absent (plain 1 (codes "NULL")) ≡ false }
    ensures other { is_absent (plain 1 (codes "nil")) ≡ false }
{}
