// What the definition says of small texts, rule by rule.
ghost use Rattle.std.specs.Prelude.{◌≡◌, [], ◌∷◌, codes, false, true, None};
ghost use Rattle.pr_yaml.specs.private.YamlScanWorked.{tokens_of, mark, key, plain, quoted, bad, bad_start};
ghost use Rattle.pr_yaml.specs.declared.yaml_scan.token.TokenKind.TheVariants.{Dash, ListOpen, ListClose, MapOpen, MapClose, Comma};
ghost use Rattle.pr_yaml.specs.declared.yaml_scan.fault.YamlKind.TheVariants.{Tab, Anchor, Alias, Tag, ComplexKey, Directive, Documents, Indicator, Quote, Escape, Colon, Flow, Extra};

/// A break in a plain text is a blank, and an empty line is a line feed. A line that is not deeper
/// is no part of it, and a comment ends it.
pub fn plain_texts_are_folded()
    ensures folded { tokens_of (codes "a: b\n  c\n\n  d # e\nf") ≡ (key 1 0 (codes "a") ∷ plain 1 3 (codes "b c\nd") ∷ plain 5 0 (codes "f") ∷ [], None) }
    ensures number_sign { tokens_of (codes "a#b") ≡ (plain 1 0 (codes "a#b") ∷ [], None) }
    ensures after_comment { tokens_of (codes "a: b # c\n  d") ≡ (key 1 0 (codes "a") ∷ plain 1 3 (codes "b") ∷ plain 2 2 (codes "d") ∷ [], None) }
    ensures second_colon { tokens_of (codes "a: b: c") ≡ (key 1 0 (codes "a") ∷ [], bad 1 Colon) }
{}

/// A key is a text on one line with a colon before a blank or the line's end; blanks before the
/// colon are allowed after a plain one alone. Dashes stand before a node on their line. Lines end
/// with CRLF or LF.
pub fn keys_and_dashes_are_read()
    ensures blank_before_colon { tokens_of (codes "a : b") ≡ (key 1 0 (codes "a") ∷ plain 1 4 (codes "b") ∷ [], None) }
    ensures quoted_key { tokens_of (codes "\"a\" : b") ≡ (quoted 1 0 (codes "a") ∷ [], bad 1 Extra) }
    ensures dashes { tokens_of (codes "- - b\n-") ≡ (mark 1 0 Dash ∷ mark 1 2 Dash ∷ plain 1 4 (codes "b") ∷ mark 2 0 Dash ∷ [], None) }
    ensures returns { tokens_of (codes "a: b\r\nc:\r\n") ≡ (key 1 0 (codes "a") ∷ plain 1 3 (codes "b") ∷ key 2 0 (codes "c") ∷ [], None) }
    ensures tab { tokens_of (codes "a:\n\tb") ≡ (key 1 0 (codes "a") ∷ [], bad 2 Tab) }
{}

/// In double quotes blanks around a break are dropped, and a backslash at the line's end joins two
/// lines. Two single quotes are one. An escape is bad at the digit with which no character can
/// come, also where the text is never closed.
pub fn quoted_texts_are_read()
    ensures double { tokens_of (codes "- \"a \n  b\\\n  c\\t\": 'it''s'") ≡ (mark 1 0 Dash ∷ quoted 1 2 (codes "a bc\t") ∷ [], bad 3 Extra) }
    ensures single { tokens_of (codes "'it''s': \"\\q\"") ≡ (key 1 0 (codes "it's") ∷ [], bad 1 Escape) }
    ensures letters { tokens_of (codes "\"\\\\\\e\\/\"") ≡ (quoted 1 0 (codes "\\\u{1b}/") ∷ [], None) }
    ensures surrogate { tokens_of (codes "\"\\uD8") ≡ ([], bad 1 Escape) }
    ensures above_all { tokens_of (codes "\"\\U0011") ≡ ([], bad 1 Escape) }
    ensures open { tokens_of (codes "\"a\nb\n") ≡ ([], bad 2 Quote) }
{}

/// A letter after a backslash stands for one byte, and each of these letters for another one. Two,
/// four or eight digits of base 16 stand for the character of that number.
pub fn escapes_stand_for_characters()
    ensures letters { tokens_of (codes "\"\\\\\\\"\\/\\a\\b\\e\\f\\n\\r\\t\\v\\0\"") ≡ (quoted 1 0 (codes "\\\"/\u{7}\u{8}\u{1b}\u{c}\n\r\t\u{b}\0") ∷ [], None) }
    ensures digits { tokens_of (codes "\"\\x41\\u0042\\U00000043\"") ≡ (quoted 1 0 (codes "ABC") ∷ [], None) }
    ensures character { tokens_of (codes "\"\\xE9\"") ≡ (quoted 1 0 (0xC3 ∷ 0xA9 ∷ []) ∷ [], None) }
    ensures other { tokens_of (codes "\"\\z\"") ≡ ([], bad 1 Escape) }
{}

/// A block scalar keeps its lines or folds them, and has one last line feed, none or all. Its first
/// line with text fixes the indentation, which is of spaces: a tab behind them is text.
pub fn block_scalars_are_read()
    ensures kept { tokens_of (codes "|\n x\n  y\n\n") ≡ (quoted 1 0 (codes "x\n y\n") ∷ [], None) }
    ensures folded { tokens_of (codes ">-\n x\n y\n\n z") ≡ (quoted 1 0 (codes "x y\nz") ∷ [], None) }
    ensures all { tokens_of (codes "|+\n x\n\n") ≡ (quoted 1 0 (codes "x\n\n") ∷ [], None) }
    ensures less_deep { tokens_of (codes "a: |\n  x\n y") ≡ (key 1 0 (codes "a") ∷ quoted 1 3 (codes "x\n") ∷ plain 3 1 (codes "y") ∷ [], None) }
    ensures indicator { tokens_of (codes "|2\n") ≡ ([], bad 1 Indicator) }
    ensures tab_is_text { tokens_of (codes "|\n \t\n  x\n") ≡ (quoted 1 0 (codes "\t\n x\n") ∷ [], None) }
    ensures tab_ends { tokens_of (codes "|\n  x\n\t\n") ≡ (quoted 1 0 (codes "x\n") ∷ [], None) }
{}

/// The signs of flows are tokens; a text in a flow ends before them, and there is no dash in one. A
/// colon before a sign makes no key.
pub fn flows_are_read()
    ensures last_comma { tokens_of (codes "[a,\n {b: c,}]") ≡ (mark 1 0 ListOpen ∷ plain 1 1 (codes "a") ∷ mark 1 2 Comma ∷ mark 2 1 MapOpen ∷ key 2 2 (codes "b") ∷ plain 2 5 (codes "c") ∷ mark 2 6 Comma ∷ mark 2 7 MapClose ∷ mark 2 8 ListClose ∷ [], None) }
    ensures dash { tokens_of (codes "[- a]") ≡ (mark 1 0 ListOpen ∷ [], bad 1 Flow) }
    ensures no_key { tokens_of (codes "{a:}") ≡ (mark 1 0 MapOpen ∷ plain 1 1 (codes "a:") ∷ mark 1 3 MapClose ∷ [], None) }
{}

/// `---` may stand once, before the first token, and after `...` nothing but blanks and comments. A
/// sign is alone on its line.
pub fn documents_are_one()
    ensures signs { tokens_of (codes "--- # c\na\n...\n# d\n") ≡ (plain 2 0 (codes "a") ∷ [], None) }
    ensures second { tokens_of (codes "a\n---\n") ≡ (plain 1 0 (codes "a") ∷ [], bad 2 Documents) }
    ensures after_end { tokens_of (codes "...\na") ≡ ([], bad 2 Documents) }
    ensures text { tokens_of (codes "--- a") ≡ (plain 1 0 (codes "--- a") ∷ [], None) }
{}

/// A sign that a node of the profile has not is told with the place where a node or a key would
/// begin.
pub fn properties_are_told()
    ensures anchor { tokens_of (codes "a: &b") ≡ (key 1 0 (codes "a") ∷ [], bad_start 1 Anchor 3 false) }
    ensures alias { tokens_of (codes "- *b") ≡ (mark 1 0 Dash ∷ [], bad_start 1 Alias 2 true) }
    ensures tag { tokens_of (codes "a: !b c") ≡ (key 1 0 (codes "a") ∷ [], bad_start 1 Tag 3 false) }
    ensures complex_key { tokens_of (codes "- ? a") ≡ (mark 1 0 Dash ∷ [], bad_start 1 ComplexKey 2 true) }
    ensures directive { tokens_of (codes "\n%YAML 1.2") ≡ ([], bad_start 2 Directive 0 true) }
    ensures no_sign { tokens_of (codes "?a") ≡ (plain 1 0 (codes "?a") ∷ [], None) }
    ensures reserved { tokens_of (codes "@a") ≡ ([], bad 1 Indicator) }
{}
