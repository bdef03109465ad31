//! Worked lines, as contracts of functions that do nothing: what good ones read as, and how bad
//! ones are bad.
ghost use Rattle.std.specs.Prelude.{◌≡◌, codes, Ok, Err, Some, None, [], ◌∷◌, ◌++◌};
ghost use Rattle.std.specs.Str.{encode_utf8_all};
ghost use Rattle.pr_labels.specs.LabelSet.{pair_of};
ghost use Rattle.pr_expo.specs.Line.{bare, line_read, measured};
ghost use Rattle.pr_expo.specs.declared.expo_line.place.ExpoKind.TheVariants.{NotText, BadName, BadLabels, DuplicateLabel, BadValue, BadTime, BadType};
ghost use Rattle.pr_expo.specs.declared.expo_line.place.FamilyKind.TheVariants.{Counter, Gauge, Histogram, Summary, Untyped};
ghost use Rattle.pr_expo.specs.declared.expo_line.place.Read.TheVariants.{Nothing, Help, Typed, Sample};

/// Blanks, and comments of which the first word stands at the sign or is none of the two.
#[tactic(auto, unfolding(crate::proofs::OnLiterals::lines_on_literals))]
pub fn lines_that_are_passed_over()
    ensures empty { line_read [] ≡ Ok Nothing }
    ensures blanks { line_read (codes "  \t ") ≡ Ok Nothing }
    ensures sign { line_read (codes " #") ≡ Ok Nothing }
    ensures at_the_sign { line_read (codes "#HELP 1") ≡ Ok Nothing }
    ensures longer { line_read (codes "# HELPX 1") ≡ Ok Nothing }
    ensures small { line_read (codes "# type 1") ≡ Ok Nothing }
    ensures second { line_read (codes "# see HELP") ≡ Ok Nothing }
    ensures foreign { line_read (encode_utf8_all (codes "# größer")) ≡ Ok Nothing }
{}

/// A help line has a family, and maybe a text. A type line has a family and one of five types.
#[tactic(auto, unfolding(crate::proofs::OnLiterals::lines_on_literals))]
pub fn lines_of_families()
    ensures help { line_read (codes "# HELP a All of them.") ≡ Ok (Help (codes "a")) }
    ensures no_text { line_read (codes "#\tHELP  a:b_1") ≡ Ok (Help (codes "a:b_1")) }
    ensures counter { line_read (codes "# TYPE a counter") ≡ Ok (Typed (codes "a") Counter) }
    ensures gauge { line_read (codes "  #  TYPE  a\tgauge  ") ≡ Ok (Typed (codes "a") Gauge) }
    ensures histogram { line_read (codes "# TYPE a histogram") ≡ Ok (Typed (codes "a") Histogram) }
    ensures summary { line_read (codes "# TYPE a summary") ≡ Ok (Typed (codes "a") Summary) }
    ensures untyped { line_read (codes "# TYPE a untyped") ≡ Ok (Typed (codes "a") Untyped) }
{}

/// A sample has its name, its labels as they stand, and the texts of its number and of its time.
#[tactic(auto, unfolding(crate::proofs::OnLiterals::lines_on_literals))]
pub fn lines_of_samples()
    ensures bare { line_read (codes "a 1") ≡ Ok (Sample (measured (bare (codes "a")) (codes "1")) None) }
    ensures blanks { line_read (codes "\ta:b_1  -Inf ") ≡ Ok (Sample (measured (bare (codes "a:b_1")) (codes "-Inf")) None) }
    ensures time { line_read (codes "a .5e+3 1395066363000") ≡ Ok (Sample (measured (bare (codes "a")) (codes ".5e+3")) (Some (codes "1395066363000"))) }
    ensures eighteen { line_read (codes "a NaN -123456789012345678 ") ≡ Ok (Sample (measured (bare (codes "a")) (codes "NaN")) (Some (codes "-123456789012345678"))) }
    ensures no_labels { line_read (codes "a{ } 1") ≡ Ok (Sample (measured (bare (codes "a")) (codes "1")) None) }
    ensures labels { line_read (codes "a{x=\"1\",y=\"\"} 2 +3") ≡ Ok (Sample
        (measured (record { name = codes "a"; labels = pair_of (codes "x") (codes "1") ∷ pair_of (codes "y") [] ∷ [] }) (codes "2")) (Some (codes "+3"))) }
    ensures spaced { line_read (codes "a{ x = \"}\" , } 1") ≡ Ok (Sample
        (measured (record { name = codes "a"; labels = pair_of (codes "x") (codes "}") ∷ [] }) (codes "1")) None) }
    ensures escapes { line_read (codes "a{x=\"\\\\ \\\" \\n \\t\"} 1") ≡ Ok (Sample
        (measured (record { name = codes "a"; labels = pair_of (codes "x") (codes "\\ \" \n \\t") ∷ [] }) (codes "1")) None) }
    ensures foreign { line_read (encode_utf8_all (codes "a{x=\"größer\"} 1")) ≡ Ok (Sample
        (measured (record { name = codes "a"; labels = pair_of (codes "x") (encode_utf8_all (codes "größer")) ∷ [] }) (codes "1")) None) }
{}

/// A name is bad where it begins, where it goes on, and where HELP or TYPE wants one.
#[tactic(auto, unfolding(crate::proofs::OnLiterals::lines_on_literals))]
pub fn lines_with_a_bad_name()
    ensures start { line_read (codes "1a 2") ≡ Err BadName }
    ensures sign { line_read (codes "a-b 1") ≡ Err BadName }
    ensures list_alone { line_read (codes "{x=\"1\"} 1") ≡ Err BadName }
    ensures no_family { line_read (codes "# HELP") ≡ Err BadName }
    ensures blanks_alone { line_read (codes "# TYPE  ") ≡ Err BadName }
    ensures family { line_read (codes "# HELP 1a b") ≡ Err BadName }
    ensures in_family { line_read (codes "# TYPE a-b counter") ≡ Err BadName }
{}

/// A list of labels is bad up to its end, which may be missing.
#[tactic(auto, unfolding(crate::proofs::OnLiterals::lines_on_literals))]
pub fn lines_with_bad_labels()
    ensures no_quote { line_read (codes "a{x=1} 2") ≡ Err BadLabels }
    ensures other_quote { line_read (codes "a{x='1'} 2") ≡ Err BadLabels }
    ensures open { line_read (codes "a{") ≡ Err BadLabels }
    ensures open_value { line_read (codes "a{x=\"1} 2") ≡ Err BadLabels }
    ensures open_escape { line_read (codes "a{x=\"1\\") ≡ Err BadLabels }
    ensures no_label { line_read (codes "a{,} 1") ≡ Err BadLabels }
    ensures no_comma { line_read (codes "a{x=\"1\" y=\"2\"} 1") ≡ Err BadLabels }
    ensures colon { line_read (codes "a{x:y=\"1\"} 1") ≡ Err BadLabels }
{}

/// A label's name that stands before is bad behind it, before its value is read, be it that of the
/// metric's name; a value may be empty.
#[tactic(auto, unfolding(crate::proofs::OnLiterals::lines_on_literals))]
pub fn lines_with_a_label_twice()
    ensures twice { line_read (codes "a{x=\"1\",x=\"2\"} 3") ≡ Err DuplicateLabel }
    ensures before_its_value { line_read (codes "a{x=\"1\",x=2") ≡ Err DuplicateLabel }
    ensures at_the_end { line_read (codes "a{x=\"1\",y=\"2\",x") ≡ Err DuplicateLabel }
    ensures empty { line_read (codes "a{x=\"1\",x=\"\"} 3") ≡ Err DuplicateLabel }
    ensures metric { line_read (codes "a{__name__=\"b\"} 1") ≡ Err DuplicateLabel }
    ensures longer { line_read (codes "a{x=\"1\",x1=2") ≡ Err BadLabels }
{}

/// A value is missing at the end of a line that is a name; it stands apart from the list, and the
/// list does not stand apart from the name.
#[tactic(auto, unfolding(crate::proofs::OnLiterals::lines_on_literals))]
pub fn lines_with_a_bad_value()
    ensures no_value { line_read (codes "a") ≡ Err BadValue }
    ensures blanks_alone { line_read (codes "a{x=\"1\"} ") ≡ Err BadValue }
    ensures apart { line_read (codes "a {x=\"1\"} 1") ≡ Err BadValue }
    ensures at_the_list { line_read (codes "a{x=\"1\"}1") ≡ Err BadValue }
    ensures word { line_read (codes "a x") ≡ Err BadValue }
    ensures longer { line_read (codes "a 1x") ≡ Err BadValue }
    ensures short { line_read (codes "a 1e 5") ≡ Err BadValue }
    ensures carriage_return { line_read (codes "a 1\r2") ≡ Err BadValue }
{}

/// A time is a sign, which may be missing, and up to 18 digits, with nothing behind it.
#[tactic(auto, unfolding(crate::proofs::OnLiterals::lines_on_literals))]
pub fn lines_with_a_bad_time()
    ensures word { line_read (codes "a 1 x") ≡ Err BadTime }
    ensures sign { line_read (codes "a 1 -") ≡ Err BadTime }
    ensures point { line_read (codes "a 1 1.5") ≡ Err BadTime }
    ensures nineteen { line_read (codes "a 1 1234567890123456789") ≡ Err BadTime }
    ensures second { line_read (codes "a 1 5 6") ≡ Err BadTime }
    ensures carriage_return { line_read (codes "a 1 5\r6") ≡ Err BadTime }
{}

/// A type line has one of the five types, and nothing behind it.
#[tactic(auto, unfolding(crate::proofs::OnLiterals::lines_on_literals))]
pub fn lines_with_a_bad_type()
    ensures no_type { line_read (codes "# TYPE a") ≡ Err BadType }
    ensures blanks_alone { line_read (codes "# TYPE a ") ≡ Err BadType }
    ensures other { line_read (codes "# TYPE a gax") ≡ Err BadType }
    ensures short { line_read (codes "# TYPE a gaug") ≡ Err BadType }
    ensures longer { line_read (codes "# TYPE a gauges") ≡ Err BadType }
    ensures capital { line_read (codes "# TYPE a Gauge") ≡ Err BadType }
    ensures second { line_read (codes "# TYPE a gauge x") ≡ Err BadType }
{}

/// A byte that is no text is bad wherever a line could go on; what is bad before it comes first.
#[tactic(auto, unfolding(crate::proofs::OnLiterals::lines_on_literals))]
pub fn lines_that_are_no_text()
    ensures value { line_read (codes "a{x=\"" ++ (0xFF ∷ codes "\"} 1")) ≡ Err NotText }
    ensures comment { line_read (codes "# see " ++ (0xC3 ∷ [])) ≡ Err NotText }
    ensures help { line_read (codes "# HELP a " ++ (0xC0 ∷ 0x80 ∷ [])) ≡ Err NotText }
    ensures name { line_read (codes "a" ++ (0xFF ∷ [])) ≡ Err NotText }
    ensures good_so_far { line_read (codes "a 1" ++ (0xFF ∷ [])) ≡ Err NotText }
    ensures later { line_read (codes "a-b " ++ (0xFF ∷ [])) ≡ Err BadName }
    ensures foreign { line_read (encode_utf8_all (codes "größe 1")) ≡ Err BadName }
{}
