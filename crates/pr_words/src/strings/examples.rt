//! Worked strings, each as a clause that the check computes.
ghost use Rattle.std.specs.Prelude.{◌≡◌, [], ◌++◌, Some, None, codes, encode_utf8};
ghost use Rattle.pr_words.specs.StringAnswer.{string_of, bad_string_place};

/// Texts that are strings, and the bytes that they mean.
pub fn string_texts_read_so()
    ensures empty { string_of (codes "\"\"") ≡ Some [] }
    ensures letters { string_of (codes "\"\\\\\\n\\t\\r\\a\\b\\f\\v\"") ≡ Some (codes "\\\n\t\r\u{7}\u{8}\u{c}\u{b}") }
    ensures own_quote { string_of (codes "\"\\\"\"") ≡ Some (codes "\"") }
    ensures own_single_quote { string_of (codes "'\\''") ≡ Some (codes "'") }
    ensures other_quotes { string_of (codes "\"a'b`c\"") ≡ Some (codes "a'b`c") }
    ensures backticks { string_of (codes "`a\\\"'\nb`") ≡ Some (codes "a\\\"'\nb") }
    ensures two_digits { string_of (codes "\"\\x41\\x7fz\"") ≡ Some (codes "A\u{7f}z") }
    ensures four_digits { string_of (codes "\"\\u00e9\\u20AC\"") ≡ Some (encode_utf8 0xE9 ++ encode_utf8 0x20AC) }
    ensures eight_digits { string_of (codes "\"\\U0001F600\"") ≡ Some (encode_utf8 0x1F600) }
    ensures around_surrogates { string_of (codes "\"\\uD7FF\\uE000\"") ≡ Some (encode_utf8 0xD7FF ++ encode_utf8 0xE000) }
    ensures last { string_of (codes "\"\\U0010FFFF\"") ≡ Some (encode_utf8 0x10FFFF) }
{}

/// Texts that begin with no string, and the first byte with which none can go on.
pub fn other_texts_are_bad_so()
    ensures nothing { bad_string_place [] ≡ 0 }
    ensures no_quote { bad_string_place (codes "a") ≡ 0 }
    ensures no_end { bad_string_place (codes "\"a") ≡ 2 }
    ensures line_feed { bad_string_place (codes "\"a\nb\"") ≡ 2 }
    ensures other_quote { bad_string_place (codes "\"\\'\"") ≡ 2 }
    ensures other_double_quote { bad_string_place (codes "'\\\"'") ≡ 2 }
    ensures backtick { bad_string_place (codes "\"\\`\"") ≡ 2 }
    ensures letter { bad_string_place (codes "\"\\q\"") ≡ 2 }
    ensures above_ascii { bad_string_place (codes "\"\\x80\"") ≡ 3 }
    ensures no_digit { bad_string_place (codes "\"\\x4g\"") ≡ 4 }
    ensures surrogate { bad_string_place (codes "\"\\uD800\"") ≡ 4 }
    ensures above_all { bad_string_place (codes "\"\\U00110000\"") ≡ 6 }
    ensures after_end { string_of (codes "\"a\"b") ≡ None }
{}
