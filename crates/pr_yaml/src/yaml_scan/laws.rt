//! The laws of scans, as the contracts of functions that do nothing.
ghost use Rattle.std.specs.Prelude.{◌≡◌, ◌↔◌, ℕ, List, false, true};
ghost use Rattle.std.specs.Str.{is_utf8};
ghost use Rattle.std.specs.declared.option.Option.{Option};
ghost use Rattle.pr_words.specs.Lines.{text_lines};
ghost use Rattle.pr_yaml.specs.declared.yaml_scan.token.Token.{Token};
ghost use Rattle.pr_yaml.specs.declared.yaml_scan.fault.ScanFault.{ScanFault};
ghost use Rattle.pr_yaml.specs.declared.yaml_scan.fault.BadPlace.{BadPlace};
ghost use Rattle.pr_yaml.specs.Tokens.{HasPlaces, HasScan};
ghost use Rattle.pr_yaml.specs.Bytes.{legible, without_mark};
ghost use Rattle.pr_yaml.specs.private.Rising.{AreRising, AllStandIn};
ghost use Rattle.pr_yaml.specs.Scan.{scanned_places, scanned};
ghost use Rattle.pr_yaml.specs.private.YamlScanWorked.{tokens_of, has_return, with_returns};

/// A text has one scan, which is a function of the text.
pub fn scan_is_a_function()
    ensures { (text : List ℕ) (tokens : List Token) (fault : Option ScanFault) → (scanned text ≡ (tokens, fault)) ↔ HasScan text tokens fault }
{}

/// So it is with the bad place in the fault's stead.
pub fn places_are_a_function()
    ensures { (text : List ℕ) (tokens : List Token) (bad : Option BadPlace) → (scanned_places text ≡ (tokens, bad)) ↔ HasPlaces text tokens bad }
{}

/// Where a carriage return stands before each line feed, what is read has the same tokens and the
/// same bad place as without them; so has a text that is UTF-8 after its byte order mark, where it
/// has one.
pub fn returns_change_nothing()
    ensures read { (text : List ℕ) → has_return text ≡ false → tokens_of (with_returns text) ≡ tokens_of text }
    ensures places { (text : List ℕ) → has_return text ≡ false → is_utf8 (without_mark text) ≡ true → scanned_places (with_returns text) ≡ scanned_places text }
{}

/// Each token stands at a byte of its line, and further on in the text than the token before it.
pub fn tokens_rise()
    ensures rising { (text : List ℕ) (tokens : List Token) (bad : Option BadPlace) → HasPlaces text tokens bad → AreRising tokens }
    ensures stand { (text : List ℕ) (tokens : List Token) (bad : Option BadPlace) → HasPlaces text tokens bad → AllStandIn (text_lines (legible (without_mark text))) tokens }
{}
