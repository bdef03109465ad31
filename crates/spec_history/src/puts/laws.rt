// Laws of entries that are put one after another.
ghost use Rattle.std.specs.Prelude.{◌≡◌, ◌++◌, List, length};
ghost use Rattle.spec_history.specs.declared.entry.Entry.{Entry};
ghost use Rattle.spec_history.specs.private.Laws.{IsLawful};
ghost use Rattle.spec_history.specs.Admission.{put_all};
ghost use Rattle.spec_history.specs.Puts.{added_count, admitted};

/// What is admitted comes behind the history, and nothing else; it is as much as is counted. What
/// is admitted of two lists, one put after the other, is what is admitted of each in its turn.
#[tactic(auto, using(crate::proofs::Putting::puts_admitted, crate::proofs::Putting::admitted_counted, crate::proofs::Putting::admitted_parts, crate::proofs::Putting::admitted_lawful))]
pub fn what_is_admitted_comes_behind()
    ensures behind { (history entries : List Entry) → put_all history entries ≡ history ++ admitted history entries }
    ensures counted { (history entries : List Entry) → length (admitted history entries) ≡ added_count history entries }
    ensures parts { (history es more : List Entry) → admitted history (es ++ more) ≡ admitted history es ++ admitted (put_all history es) more }
    ensures lawful { (history entries : List Entry) → IsLawful history → IsLawful (history ++ admitted history entries) }
{}
