// What the definitions say of some kinds.
ghost use Rattle.std.specs.Prelude.{◌≡◌, codes};
ghost use Rattle.pr_ast.specs.declared.lex.fault.LexKind.TheVariants as lex;
ghost use Rattle.pr_parse.specs.declared.fault.ParseKind.TheVariants as parse;
ghost use Rattle.pr_types.specs.declared.kind.TypeKind.TheVariants as typing;
ghost use Rattle.pr_parse.specs.declared.query_kind.QueryKind.TheVariants.{Lex, Parse, Typing};
ghost use Rattle.pr_parse.specs.QueryKinds.{kind_text};

/// A kind is written by its name and what it tells.
#[tactic(auto, unfolding(crate::proofs::QueryKindsComputing::computing))]
pub fn kinds_are_written_so()
    ensures lexical { kind_text (Lex lex.SpanTooLong) ≡ codes "SpanTooLong" }
    ensures parsing { kind_text (Parse parse.UnknownFunction) ≡ codes "UnknownFunction" }
    ensures arguments { kind_text (Typing (typing.Arguments 3 0 1)) ≡ codes "Arguments 3 0 1" }
    ensures reach { kind_text (Typing (typing.Reach 3974400000 3888000000)) ≡ codes "Reach 3974400000 3888000000" }
    ensures match_on_scalar { kind_text (Typing typing.MatchOnScalar) ≡ codes "MatchOnScalar" }
{}
