//! What the definitions say of small texts.
ghost use Rattle.std.specs.Prelude.{◌≡◌, codes, pos, [], ◌∷◌, ◌++◌};
ghost use Rattle.std.specs.Prelude.{Some};
ghost use Rattle.pr_labels.specs.LabelSet.{named};
ghost use Rattle.pr_tmpl.specs.declared.template.External.{External};
ghost use Rattle.pr_tmpl.specs.declared.template.Verb.TheVariants.{Plain, Fixed};
ghost use Rattle.pr_tmpl.specs.declared.template.Operand.TheVariants.{Value, Label, ExternalLabel, ExternalUrl, Words as Quoted};
ghost use Rattle.pr_tmpl.specs.declared.template.Call.TheVariants.{Printf, Humanize, HumanizePercentage, HumanizeDuration};
ghost use Rattle.pr_tmpl.specs.declared.template.Part.TheVariants.{Words, Pipe};
ghost use Rattle.pr_tmpl.specs.TemplateReading.{template_parts, bad_template_place};
ghost use Rattle.pr_tmpl.specs.Expansion.{expansion};
ghost use Rattle.pr_num.specs.declared.value.Num.TheVariants.{Finite, NaN};

/// What small texts are as templates, and how those expand.
pub fn small_templates_expand_so()
    ensures words { template_parts (codes "a{b") ≡ Some (Words (codes "a{b") ∷ []) }
    ensures nothing { template_parts [] ≡ Some [] }
    ensures value { template_parts (codes "v={{ $value }}!") ≡ Some (Words (codes "v=") ∷ Pipe Value [] ∷ Words (codes "!") ∷ []) }
    ensures pipe { template_parts (codes "{{.Labels.a|humanize | humanizeDuration}}") ≡ Some (Pipe (Label (codes "a")) (Humanize ∷ HumanizeDuration ∷ []) ∷ []) }
    ensures first_call { template_parts (codes "{{ humanizePercentage .Value }}") ≡ Some (Pipe Value (HumanizePercentage ∷ []) ∷ []) }
    ensures address { template_parts (codes "{{$externalURL}}{{\"A\"}}") ≡ Some (Pipe ExternalUrl [] ∷ Pipe (Quoted (codes "A")) [] ∷ []) }
    ensures external { template_parts (codes "{{ .ExternalLabels.zone }}") ≡ Some (Pipe (ExternalLabel (codes "zone")) [] ∷ []) }
    ensures format { template_parts (codes "{{ printf \"<%.2f>\" $value }}") ≡ Some (Pipe Value (Printf (record { before = codes "<"; verb = Fixed 2; after = codes ">" }) ∷ []) ∷ []) }
    ensures cut_word { bad_template_place (codes "{{ $valu }}") ≡ 8 }
    ensures long_word { bad_template_place (codes "{{ $valuex }}") ≡ 9 }
    ensures one_brace { bad_template_place (codes "{{ $value }x") ≡ 11 }
    ensures no_call { bad_template_place (codes "{{ humanizeP }}") ≡ 12 }
    ensures alone { bad_template_place (codes "{{") ≡ 2 }
    ensures trim { bad_template_place (codes "{{- x") ≡ 2 }
    ensures control { bad_template_place (codes "{{ if") ≡ 3 }
    ensures no_blank { bad_template_place (codes "{{ printf\"%s\"") ≡ 9 }
    ensures two_blanks { template_parts (codes "{{ printf  \"%v\" $value }}") ≡ Some (Pipe Value (Printf (record { before = []; verb = Plain; after = [] }) ∷ []) ∷ []) }
    ensures percents { template_parts (codes "{{ $value|printf \"a%%\\x25.2f%%\" }}") ≡ Some (Pipe Value (Printf (record { before = codes "a%"; verb = Fixed 2; after = codes "%" }) ∷ []) ∷ []) }
    ensures written_otherwise { bad_template_place (codes "{{ printf \"%\\x77") ≡ 12 }
    ensures cut_escape { bad_template_place (codes "{{ printf \"%\\x7") ≡ 15 }
    ensures other_verb { bad_template_place (codes "{{ printf \"%d\\q\" 1") ≡ 12 }
    ensures two_verbs { bad_template_place (codes "{{ printf \"%v%s\" $value }}") ≡ 14 }
    ensures bad_escape { bad_template_place (codes "{{ printf \"%v\\%\" $value }}") ≡ 14 }
    ensures no_verb { bad_template_place (codes "{{ printf \"%%\" $value }}") ≡ 13 }
    ensures not_ascii { bad_template_place (codes "{{ printf \"" ++ (0xC3 ∷ 0xA9 ∷ codes "%" ++ (0xC3 ∷ 0xA9 ∷ codes "\""))) ≡ 14 }
    ensures text_of_escapes { template_parts (codes "\\n\\q\\x4") ≡ Some (Words (codes "\\n\\q\\x4") ∷ []) }
    ensures expanded { (e : External) → expansion (named (codes "m")) (Finite (pos 42000000000)) e
        (Words (codes "v=") ∷ Pipe Value [] ∷ Words (codes " ") ∷ Pipe (Label (codes "__name__")) [] ∷ Pipe (Label (codes "x")) [] ∷ []) ≡ codes "v=42 m" }
    ensures of_a_text { (e : External) → expansion [] NaN e (Pipe (Quoted (codes "12.5")) (HumanizePercentage ∷ []) ∷ []) ≡ codes "1250%" }
    ensures not_a_number { (e : External) → expansion [] NaN e (Pipe (Quoted (codes "a")) (Humanize ∷ []) ∷ Pipe Value (HumanizeDuration ∷ []) ∷ []) ≡ codes "aNaN" }
    ensures calls { (e : External) → expansion [] (Finite (pos 3725000000000)) e
        (Pipe Value (Printf (record { before = []; verb = Fixed 0; after = [] }) ∷ HumanizeDuration ∷ []) ∷ []) ≡ codes "1h 2m 5s" }
{}
