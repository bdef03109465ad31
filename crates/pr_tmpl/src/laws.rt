// The laws of the texts of templates, each as the contract of a function that does nothing.
ghost use Rattle.std.specs.Prelude.{◌≡◌, ℕ, List, Some};
ghost use Rattle.pr_labels.specs.pr_forms.Table.{IsDecided};
ghost use Rattle.pr_labels.specs.pr_forms.Reading.{Ends};
ghost use Rattle.pr_tmpl.specs.declared.template.Part.{Part};
ghost use Rattle.pr_tmpl.specs.Pieces.{pieces, raw_text};
ghost use Rattle.pr_tmpl.specs.TemplateText.{production, IsTemplate, IsBadPiece};
ghost use Rattle.pr_tmpl.specs.TemplateTable.{table, rank, steps};
ghost use Rattle.pr_tmpl.specs.TemplateReading.{template_parts, bad_piece};

/// The pieces of a text are all of it.
#[tactic(auto, using(crate::proofs::Pieces::pieces_are_all))]
pub fn pieces_are_the_text()
    ensures { (text : List ℕ) → raw_text (pieces text) ≡ text }
{}

/// One piece ahead decides the grammar of templates: so a text is read in one way, and without
/// going back. The grammar ends: so its reading is a function of the text.
pub fn one_piece_decides_templates()
    ensures decided { IsDecided production table }
    ensures ends { Ends production table rank steps }
{}

/// The parts of a template are a function of its text, and so is the first piece with which no
/// template can go on.
pub fn parts_of_a_template_are_a_function()
    ensures reads { (text : List ℕ) (parts : List Part) → template_parts text ≡ Some parts → IsTemplate text parts }
    ensures given { (text : List ℕ) (parts : List Part) → IsTemplate text parts → template_parts text ≡ Some parts }
    ensures piece { (text : List ℕ) → IsBadPiece text (bad_piece text) }
{}
